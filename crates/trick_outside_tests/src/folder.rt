//! A folder of files, and standard output.

use std::fs::{self, File};
use std::io;
use std::os::fd::AsRawFd;
use std::process::Abort;
use std::rt::Files;
use trick_base::Word;
use trick_outside::{Got, Shelf, Sink, Taken1, Wrote};
use trick_outside_folder::{Folder, StandardOutput};

/// More bytes than a file may have, which are two to the power of 31.
const TOO_MANY: u64 = 2_147_483_649;

/// A path as the name of a file.
fn name_of(rt: &(impl Abort + AllocGlobal), path: &str) -> Word {
    Word::from_bytes(rt.alloc(), path.as_bytes()).expect(rt, "memory")
}

/// What a folder answers to a get.
fn get(rt: &(impl Abort + AllocGlobal), folder: &mut Folder<impl Files>, path: &str) -> Got {
    let name = name_of(rt, path);
    folder.get(rt.alloc(), &name)
}

/// Whether a file is found with these bytes.
fn holds(
    rt: &(impl Abort + AllocGlobal),
    folder: &mut Folder<impl Files>,
    path: &str,
    bytes: &[u8],
) -> bool {
    match get(rt, folder, path) {
        Got::Found(found) => found.as_slice() == bytes,
        _ => false,
    }
}

/// Whether no file is found.
fn is_missing(
    rt: &(impl Abort + AllocGlobal),
    folder: &mut Folder<impl Files>,
    path: &str,
) -> bool {
    matches!(get(rt, folder, path), Got::Missing)
}

/// Whether a get fails.
fn get_fails(rt: &(impl Abort + AllocGlobal), folder: &mut Folder<impl Files>, path: &str) -> bool {
    matches!(get(rt, folder, path), Got::Failed)
}

/// Makes an empty file.
fn create(rt: &(impl Abort + AllocGlobal), folder: &mut Folder<impl Files>, path: &str) -> Wrote {
    let name = name_of(rt, path);
    folder.create(&name)
}

/// Adds bytes to a file.
fn append(
    rt: &(impl Abort + AllocGlobal),
    folder: &mut Folder<impl Files>,
    path: &str,
    bytes: &[u8],
) -> Wrote {
    let name = name_of(rt, path);
    folder.append(&name, bytes)
}

/// A call of a folder, and the answer that it is to have.
#[derive(Clone, Copy)]
enum Step {
    /// An empty file is made.
    Create(&'static str),
    /// Bytes are added to a file.
    Append(&'static str, &'static [u8]),
    /// A file is found with these bytes.
    Holds(&'static str, &'static [u8]),
    /// No file is found.
    Misses(&'static str),
}

/// Whether a call has its answer.
fn is_right(rt: &(impl Abort + AllocGlobal), folder: &mut Folder<impl Files>, step: &Step) -> bool {
    match step {
        Step::Create(path) => create(rt, folder, path) == Wrote::Done,
        Step::Append(path, bytes) => append(rt, folder, path, bytes) == Wrote::Done,
        Step::Holds(path, bytes) => holds(rt, folder, path, bytes),
        Step::Misses(path) => is_missing(rt, folder, path),
    }
}

/// Makes these calls, one after another. None is a fault.
fn go(rt: &(impl Abort + AllocGlobal), folder: &mut Folder<impl Files>, steps: &[Step]) {
    for (place, step) in steps.iter().enumerate() {
        assert!(rt; is_right(rt, folder, step), "call {place}");
    }
    assert_eq!(rt; folder.faults(), 0);
}

/// A file is made, appended to and made anew.
const ONE_FILE: [Step; 7] = [
    Step::Misses("a.chk"),
    Step::Create("a.chk"),
    Step::Append("a.chk", b"one;\n"),
    Step::Append("a.chk", b"two;\n"),
    Step::Holds("a.chk", b"one;\ntwo;\n"),
    Step::Create("a.chk"),
    Step::Holds("a.chk", b""),
];

/// A name is a path, from here or from the root. The last ones have no file.
const PATHS: [Step; 8] = [
    Step::Append("b/a.chk", b"one;\n"),
    Step::Append("./b/a.chk", b"one;\n"),
    Step::Holds("b/../b/a.chk", b"one;\none;\n"),
    Step::Misses(""),
    Step::Misses("c"),
    Step::Misses("b/c"),
    Step::Misses("a.chk/c"),
    Step::Misses("/no such folder/c"),
];

#[test]
fn a_folder_holds_files(rt: HostRuntime) {
    let mut folder = Folder::new(&rt, rt.alloc());
    go(&rt, &mut folder, &ONE_FILE);
    fs::create_dir(&rt, "b").expect(&rt, "a folder");
    go(&rt, &mut folder, &PATHS);
}

/// The path of a log.
fn log_path(rt: &(impl Abort + AllocGlobal), number: u32) -> String {
    format!(in rt.alloc(); "log_{number}.csv").expect(rt, "memory")
}

/// Adds a line to each log. They are more files than are kept open.
fn append_to_each(rt: &(impl Abort + AllocGlobal), folder: &mut Folder<impl Files>, line: &[u8]) {
    for number in 0..200 {
        let path = log_path(rt, number);
        assert!(rt; append(rt, folder, path.as_str(), line) == Wrote::Done);
    }
}

/// Some logs have both lines.
fn have_two_lines(rt: &(impl Abort + AllocGlobal), folder: &mut Folder<impl Files>) {
    for number in [0, 1, 71, 72, 73, 127, 128, 199] {
        let path = log_path(rt, number);
        assert!(rt; holds(rt, folder, path.as_str(), b"one\ntwo\n"));
    }
}

/// A file has two names while it is open.
const TWO_NAMES: [Step; 3] = [
    Step::Append("./log_199.csv", b"three\n"),
    Step::Append("log_199.csv", b"four\n"),
    Step::Holds("log_199.csv", b"one\ntwo\nthree\nfour\n"),
];

/// A file that was removed while it is open is made anew.
const MADE_ANEW: [Step; 3] = [
    Step::Create("log_199.csv"),
    Step::Append("log_199.csv", b"five\n"),
    Step::Holds("log_199.csv", b"five\n"),
];

#[test]
fn files_stay_open(rt: HostRuntime) {
    let mut folder = Folder::new(&rt, rt.alloc());
    // each is appended to again after the others
    append_to_each(&rt, &mut folder, b"one\n");
    append_to_each(&rt, &mut folder, b"two\n");
    have_two_lines(&rt, &mut folder);
    go(&rt, &mut folder, &TWO_NAMES);
    fs::remove_file(&rt, "log_199.csv").expect(&rt, "a file");
    go(&rt, &mut folder, &MADE_ANEW);
}

/// Whether each call fails.
fn all_fail(rt: &(impl Abort + AllocGlobal), folder: &mut Folder<impl Files>, path: &str) -> bool {
    get_fails(rt, folder, path)
        && create(rt, folder, path) == Wrote::Failed
        && append(rt, folder, path, b"one") == Wrote::Failed
}

/// Each call fails at once, and adds one to the count.
fn fails_at_once(rt: &(impl Abort + AllocGlobal), folder: &mut Folder<impl Files>, path: &str) {
    let faults = folder.faults();
    assert!(rt; all_fail(rt, folder, path), "{path}");
    assert_eq!(rt; folder.faults().checked_sub(faults), Some(3), "{path}");
}

#[test]
fn what_is_no_file_fails_at_once(rt: HostRuntime) {
    let mut folder = Folder::new(&rt, rt.alloc());
    fs::create_dir(&rt, "d").expect(&rt, "a folder");
    for path in ["d", ".", "/", "/dev/null", "/dev/zero", "a\0"] {
        fails_at_once(&rt, &mut folder, path);
    }
}

#[test]
fn a_pipe_fails_at_once(rt: HostRuntime) {
    let mut folder = Folder::new(&rt, rt.alloc());
    // A pipe of which one end is open and nothing comes: to open or to read it would wait.
    let (reader, _writer) = io::pipe(&rt).expect(&rt, "a pipe");
    let path = format!(in rt.alloc(); "/proc/self/fd/{}", reader.as_raw_fd()).expect(&rt, "memory");
    fails_at_once(&rt, &mut folder, path.as_str());
}

#[test]
fn a_file_has_so_many_bytes_and_no_more(rt: HostRuntime) {
    File::create(&rt, "large")
        .expect(&rt, "a file")
        .set_len(TOO_MANY)
        .expect(&rt, "its length");
    let mut folder = Folder::new(&rt, rt.alloc());
    assert!(rt; get_fails(&rt, &mut folder, "large"));
}

#[test]
fn a_line_is_taken(rt: HostRuntime) {
    let mut out = StandardOutput::new(&rt);
    assert_eq!(rt; out.write(b"a line\n"), Taken1::Took(7));
    assert_eq!(rt; out.write(b""), Taken1::Took(0));
    assert_eq!(rt; out.faults(), 0);
}
