//! What a shelf and a sink in memory answer. A new one takes the place of the one before it.

ghost use Rattle.std.specs.Prelude.{◌≡◌};

use crate::call::{Call, number_of};
use std::alloc::{AllocError, Global};
use trick_base::Word;
use trick_cases_report::Report;
use trick_outside::{
    Got, MemoryShelf, MemorySink, Printed, Shelf, Sink, Stop, Taken1, append, create, get, put,
    write_file,
};

/// The shelf and the sink that calls are made on.
#[derive(Drop)]
pub(crate) struct Held {
    shelf: MemoryShelf,
    sink: MemorySink,
}

impl Held {
    /// A shelf without files and an empty sink.
    pub(crate) fn new(alloc: Global) -> Held {
        Held {
            shelf: MemoryShelf::new(alloc),
            sink: MemorySink::new(alloc),
        }
    }

    /// A new shelf.
    pub(crate) fn shelve(
        &mut self,
        alloc: Global,
        call: &Call<'_>,
        report: &mut Report,
    ) -> Result<(), AllocError> {
        self.shelf = new_shelf(alloc, call.words)?;
        shelved(&self.shelf, "new", report)
    }

    /// The file of a name.
    pub(crate) fn get(
        &mut self,
        alloc: Global,
        call: &Call<'_>,
        report: &mut Report,
    ) -> Result<(), AllocError> {
        let name = Word::from_bytes(alloc, call.word(0).as_bytes())?;
        got(&get(&mut self.shelf, alloc, &name), report);
        Ok(())
    }

    /// A call that writes a file: `create`, `append` or `write`.
    pub(crate) fn write(
        &mut self,
        alloc: Global,
        call: &Call<'_>,
        report: &mut Report,
    ) -> Result<(), AllocError> {
        let name = Word::from_bytes(alloc, call.word(0).as_bytes())?;
        let said = stop_name(wrote(&mut self.shelf, call, &name));
        shelved(&self.shelf, said, report)
    }

    /// A new sink.
    pub(crate) fn sink(
        &mut self,
        alloc: Global,
        call: &Call<'_>,
        report: &mut Report,
    ) -> Result<(), AllocError> {
        self.sink = new_sink(alloc, call.words)?;
        sunk(&self.sink, "new", report);
        Ok(())
    }

    /// A text that is put to the sink.
    pub(crate) fn put(&mut self, call: &Call<'_>, report: &mut Report) -> Result<(), AllocError> {
        let said = printed_name(put(&mut self.sink, call.text));
        sunk(&self.sink, said, report);
        Ok(())
    }

    /// A piece that the sink takes.
    pub(crate) fn piece(&mut self, call: &Call<'_>, report: &mut Report) -> Result<(), AllocError> {
        match self.sink.write(call.text) {
            Taken1::Took(count) => report.number("took ", count as u64, ""),
            Taken1::Failed => report.word("failed"),
            Taken1::OutOfMemory => report.word("no memory"),
        }
        Ok(())
    }
}

// The numbers among words, which are of the calls that fail.
fn failing_of(alloc: Global, words: &str) -> Result<Vec<u64>, AllocError> {
    let mut failing = Vec::new(alloc);
    for word in words.split_terminator(' ') {
        if !word.contains('=') {
            failing.push(number_of(word))?;
        }
    }
    Ok(failing)
}

// A shelf without files whose calls of these numbers fail.
fn empty_shelf(alloc: Global, failing: Vec<u64>) -> MemoryShelf {
    if failing.is_empty() {
        return MemoryShelf::new(alloc);
    }
    MemoryShelf::failing(alloc, failing)
}

// A shelf with the file that a word names.
fn with_word(shelf: MemoryShelf, word: &str) -> Result<MemoryShelf, AllocError> {
    match word.split_once('=') {
        Some((name, bytes)) => shelf.with_file(name.as_bytes(), bytes.as_bytes()),
        None => Ok(shelf),
    }
}

// A shelf by its words: the numbers of the calls that fail, and files, as `input=kept`.
fn new_shelf(alloc: Global, words: &str) -> Result<MemoryShelf, AllocError> {
    let mut shelf = empty_shelf(alloc, failing_of(alloc, words)?);
    for word in words.split_terminator(' ') {
        shelf = with_word(shelf, word)?;
    }
    Ok(shelf)
}

// An empty sink that takes so many bytes of a piece, 0 for all, and whose writes of these numbers fail.
fn empty_sink(alloc: Global, most: usize, failing: Vec<u64>) -> MemorySink {
    if most == 0 {
        return MemorySink::new(alloc);
    }
    if failing.is_empty() {
        return MemorySink::taking(alloc, most);
    }
    MemorySink::failing(alloc, failing).with_most(most)
}

// A sink by its words: how many bytes of a piece it takes, 0 for all, and the numbers of the writes that fail.
fn new_sink(alloc: Global, words: &str) -> Result<MemorySink, AllocError> {
    let (most, failing) = words.split_once(' ').unwrap_or((words, ""));
    let failing = failing_of(alloc, failing)?;
    Ok(empty_sink(alloc, number_of(most) as usize, failing))
}

// Makes a call that writes.
fn wrote(shelf: &mut MemoryShelf, call: &Call<'_>, name: &Word) -> Result<(), Stop> {
    match call.name {
        "create" => create(shelf, name),
        "append" => append(shelf, name, call.text),
        _ => write_file(shelf, name, call.text),
    }
}

fn stop_name(answer: Result<(), Stop>) -> &'static str {
    match answer {
        Ok(()) => "done",
        Err(Stop::Shelf) => "failed",
        Err(Stop::Memory) => "no memory",
    }
}

fn printed_name(printed: Printed) -> &'static str {
    match printed {
        Printed::Done => "done",
        Printed::Failed => "failed",
        Printed::OutOfMemory => "no memory",
    }
}

// Adds the bytes of a file that was found.
fn found(bytes: &[u8], report: &mut Report) {
    report.word("found [");
    report.bytes(bytes);
    report.word("]");
}

// Adds what a get answered.
fn got(got: &Got, report: &mut Report) {
    match got {
        Got::Found(bytes) => found(bytes, report),
        Got::Missing => report.word("missing"),
        Got::Failed => report.word("failed"),
        Got::OutOfMemory => report.word("no memory"),
    }
}

// Adds a file.
fn file(shelf: &MemoryShelf, name: &[u8], report: &mut Report) {
    report.word(" ");
    report.bytes(name);
    report.word("=");
    report.bytes(shelf.file(name).unwrap_or(b"?"));
}

// Adds the files of these names.
fn files(shelf: &MemoryShelf, names: &[Word], report: &mut Report) {
    for name in names {
        file(shelf, name.as_slice(), report);
    }
}

// Adds an answer with the files that a shelf holds after it and how many calls have failed.
fn shelved(shelf: &MemoryShelf, said: &str, report: &mut Report) -> Result<(), AllocError> {
    report.word(said);
    report.number(", ", shelf.faults(), " failed;");
    let names = shelf.names()?;
    files(shelf, &names, report);
    Ok(())
}

// Adds an answer with what a sink holds after it and how many writes have failed.
fn sunk(sink: &MemorySink, said: &str, report: &mut Report) {
    report.word(said);
    report.number(", ", sink.faults(), " failed; [");
    report.bytes(sink.bytes());
    report.word("]");
}

// The count of faults of a shelf that never fails, after calls through the trait.
fn count_after_writing(alloc: Global, name: &Word) -> u64
    ensures { result ≡ 0 }
{
    let mut shelf = MemoryShelf::new(alloc);
    let _ = write_file(&mut shelf, name, b"bytes");
    shelf.faults()
}

// The count of faults of a sink that never fails, after a text that was put to it.
fn count_after_putting(alloc: Global) -> u64
    ensures { result ≡ 0 }
{
    let mut sink = MemorySink::new(alloc);
    let _ = put(&mut sink, b"bytes");
    sink.faults()
}

/// The counts of forms that never fail, which are proved to be 0.
pub(crate) fn quiet(alloc: Global, report: &mut Report) -> Result<(), AllocError> {
    let name = Word::from_bytes(alloc, b"final.chk")?;
    report.number("shelf ", count_after_writing(alloc, &name), "");
    report.number(", sink ", count_after_putting(alloc), "");
    Ok(())
}
