//! Bodies as deep as a text can make them, by calls, by blocks and by expressions, on the usual stack of a
//! thread.

use std::alloc::{AllocError, Global};
use std::thread;
use trick_base::Word;
use trick_outside::{MemoryShelf, MemorySink};
use trick_top_alone::tricks_alone;

/// The methods of the class: with its variables and its constructor nearly the 4,096 parts that it may have.
const METHODS: u32 = 4090;

/// The blocks round each call: with the braces of the class and of the method nearly the 64 levels that
/// a text may have.
const BLOCKS: u32 = 61;

/// The levels of an expression inside the braces of the class and of the method.
const LEVELS: u32 = 62;

/// A text inside so many openings, with as many closings after it.
fn nested(
    alloc: Global,
    count: u32,
    open: &str,
    inner: &str,
    close: &str,
) -> Result<String, AllocError> {
    let mut text = String::new(alloc);
    for _k in 0..count {
        text.push_str(open)?;
    }
    text.push_str(inner)?;
    for _k in 0..count {
        text.push_str(close)?;
    }
    Ok(text)
}

/// The first method adds to `n` the values of four deep expressions: 63, 0, 1 and 1.
fn first_method(alloc: Global) -> Result<String, AllocError> {
    let sums = nested(alloc, LEVELS, "(1 + ", "1", ")")?;
    let indexes = nested(alloc, LEVELS, "w[", "0", "]")?;
    let prefixes = nested(alloc, LEVELS, "- ", "1", "")?;
    let choices = nested(alloc, LEVELS, "1 ? ", "1", ": 2")?;
    format!(in alloc;
        "void m0() {{ n += {sums}; n += {indexes}; n += {prefixes}; n += {choices}; }}\n"
    )
}

/// The other methods, each of which calls the one before it, inside so many blocks.
fn other_methods(alloc: Global) -> Result<String, AllocError> {
    let mut text = String::new(alloc);
    for k in 1..METHODS {
        let before = k - 1;
        let call = format!(in alloc; "m{before}();")?;
        let body = nested(alloc, BLOCKS, "{", call.as_str(), "}")?;
        write!(text, "void m{k}() {{{body}}}\n")?;
    }
    Ok(text)
}

/// A class whose job is the last of these methods.
fn deep_class(alloc: Global) -> Result<String, AllocError> {
    let first = first_method(alloc)?;
    let others = other_methods(alloc)?;
    let last = METHODS - 1;
    format!(in alloc;
        "class K : public Trick::SimObject {{ long n; long w[1];
{first}{others}K() {{ (1.0, \"scheduled\") m{last}(); }} }};
K k;
"
    )
}

/// The words `serial s i`.
fn words(alloc: Global) -> Result<Vec<Word>, AllocError> {
    let mut all = Vec::new(alloc);
    all.push(Word::from_bytes(alloc, b"serial")?)?;
    all.push(Word::from_bytes(alloc, b"s")?)?;
    all.push(Word::from_bytes(alloc, b"i")?)?;
    Ok(all)
}

/// A shelf with the texts of the class, which runs for four tics.
fn shelf_of(alloc: Global, s_define: &[u8]) -> Result<MemoryShelf, AllocError> {
    MemoryShelf::new(alloc)
        .with_file(b"s", s_define)?
        .with_file(b"i", b"trick.stop(3.0)\n")
}

/// Whether 65 was added in each of four tics.
fn is_counted(shelf: &MemoryShelf) -> bool {
    let state = shelf.file(b"final.chk").unwrap_or(&[]);
    match str::from_utf8(state) {
        Ok(text) => text.contains("\nk.n = 260;\n"),
        Err(_) => false,
    }
}

/// How a run ended.
#[derive(Clone, Copy, Drop)]
struct Ended {
    status: u8,
    counted: bool,
}

/// The run of what stands on a shelf.
fn run_of(alloc: Global, shelf: &mut MemoryShelf) -> Result<Ended, AllocError> {
    let words = words(alloc)?;
    let mut out = MemorySink::new(alloc);
    let status = tricks_alone(alloc, &words, shelf, &mut out);
    drop(out);
    drop(words);
    Ok(Ended {
        status,
        counted: is_counted(shelf),
    })
}

/// Runs the class.
fn run_deep(alloc: Global) -> Result<Ended, AllocError> {
    let s_define = deep_class(alloc)?;
    let shelf = shelf_of(alloc, s_define.as_bytes());
    drop(s_define);
    let mut shelf = shelf?;
    let ended = run_of(alloc, &mut shelf);
    drop(shelf);
    ended
}

#[test]
fn calls_take_no_stack(rt: HostRuntime) {
    let alloc = rt.alloc();
    let worker = thread::spawn(&rt, move || run_deep(alloc)).expect(&rt, "a thread");
    let ended = worker.join(&rt).expect(&rt, "memory");
    assert_eq!(rt; ended.status, 0);
    assert!(rt; ended.counted);
}
