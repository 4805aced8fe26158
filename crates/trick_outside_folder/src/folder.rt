//! The folder that the program is run in.

ghost use Rattle.std.specs.Prelude.{◌≡◌};
ghost use Rattle.trick_outside.specs.Causes.{HasCause};

use crate::open_files::OpenFiles;
use std::alloc::Global;
use std::fs::{self, OpenFile, OpenOptions};
use std::io::{self, ErrorKind, Read, Write};
use std::rt::Files;
use trick_base::Word;
use trick_outside::{Got, Shelf, Wrote};

/// How many bytes of a file are read at the most: two to the power of 31.
const FILE_LIMIT: u64 = 2_147_483_648;

/// The folder that the program is run in, as a shelf. It tells nothing of what it holds.
///
/// A name is the path of a file, from that folder or from the root, and links are followed. What is
/// there and is no regular file, as a folder, a pipe or a device, is not opened: the call fails, and
/// waits for nobody. A file to which is appended stays open for the next append; each append is one
/// write, so what was appended is there for others to see.
#[derive(Drop)]
pub struct Folder<'a, R: Files> {
    rt: &'a R,
    alloc: Global,
    faults: u64,
    open: OpenFiles<R::File>,
}

/// The path that a name is. One that is no text is the name of nothing that can be opened.
fn path_of(name: &Word) -> io::Result<&str> {
    str::from_utf8(name.as_slice()).map_err(|_| io::Error::from(ErrorKind::InvalidInput))
}

/// Whether a regular file has this path. It is an error if something else has it.
fn is_there<R: Files>(rt: &R, path: &str) -> io::Result<bool> {
    match fs::metadata(rt, path) {
        Ok(found) if found.is_file() => Ok(true),
        Ok(_) => Err(io::Error::from(ErrorKind::InvalidInput)),
        Err(error) => match error.kind() {
            ErrorKind::NotFound | ErrorKind::NotADirectory => Ok(false),
            _ => Err(error),
        },
    }
}

/// The bytes of a file that is not too large, or none where there is no file.
fn read_file<R: Files>(rt: &R, alloc: Global, name: &Word) -> io::Result<Option<Vec<u8>>> {
    let path = path_of(name)?;
    if !is_there(rt, path)? {
        return Ok(None);
    }
    let file = fs::open(rt, path)?;
    if file.metadata()?.len() > FILE_LIMIT {
        return Err(io::Error::from(ErrorKind::FileTooLarge));
    }
    let mut bytes = Vec::new(alloc);
    file.take(FILE_LIMIT + 1).read_to_end(&mut bytes)?;
    if bytes.len() as u64 > FILE_LIMIT {
        return Err(io::Error::from(ErrorKind::FileTooLarge));
    }
    Ok(Some(bytes))
}

/// Makes an empty file, in place of one that is there.
fn make_empty<R: Files>(rt: &R, name: &Word) -> io::Result<()> {
    let path = path_of(name)?;
    is_there(rt, path)?;
    fs::create(rt, path)?;
    Ok(())
}

/// Opens a file so that all that is written goes to its end. It is made where there is none.
fn open_at_end<R: Files>(rt: &R, name: &Word) -> io::Result<R::File> {
    let path = path_of(name)?;
    is_there(rt, path)?;
    OpenOptions::new().append(true).create(true).open(rt, path)
}

impl<'a, R: Files> Folder<'a, R> {
    /// The folder, of which no file is open yet.
    pub fn new(rt: &'a R, alloc: Global) -> Self {
        Folder {
            rt,
            alloc,
            faults: 0,
            open: OpenFiles::new(alloc),
        }
    }

    /// Opens a file for appending. Where that fails it is tried once more with all others closed, since
    /// a process may have so many open files and no more.
    fn open_file(&mut self, name: &Word) -> io::Result<R::File>
        ensures { self.new.faults ≡ self.old.faults }
    {
        match open_at_end(self.rt, name) {
            Err(_) if self.open.close_all() => open_at_end(self.rt, name),
            opened => opened,
        }
    }

    /// Makes an empty file. Where that fails it is tried once more with all other files closed.
    fn make_file(&mut self, name: &Word) -> io::Result<()>
        ensures { self.new.faults ≡ self.old.faults }
    {
        self.open.close(name.as_slice());
        match make_empty(self.rt, name) {
            Err(_) if self.open.close_all() => make_empty(self.rt, name),
            made => made,
        }
    }

    /// Adds bytes at a file's end, and keeps it open.
    fn append_to(&mut self, name: &Word, bytes: &[u8]) -> io::Result<()>
        ensures { self.new.faults ≡ self.old.faults }
    {
        if let Some(file) = self.open.find(name.as_slice()) {
            return file.write_all(bytes);
        }
        let mut file = self.open_file(name)?;
        file.write_all(bytes)?;
        self.open.keep(self.alloc, name.as_slice(), file);
        Ok(())
    }

    fn fail(&mut self)
        ensures { HasCause self.old.faults self.new.faults (Unit {0}) }
    {
        self.faults = self.faults.saturating_add(1);
    }

    /// The answer to a call that writes.
    fn wrote(&mut self, done: io::Result<()>) -> Wrote
        ensures { HasCause self.old.faults self.new.faults (result ≡ Wrote.Failed) }
    {
        match done {
            Ok(()) => Wrote::Done,
            Err(error) if error.kind() == ErrorKind::OutOfMemory => Wrote::OutOfMemory,
            Err(_) => {
                self.fail();
                Wrote::Failed
            }
        }
    }
}

impl<R: Files> Shelf for Folder<'_, R> {
    ghost use Rattle.std.specs.Prelude.{None};

    ghost holds = { λ _. None };

    ghost failures = { λ folder. folder.faults };

    ghost called = { λ _ _ _. Unit {0} };

    ghost called_none = { λ _. tt };

    ghost called_join = { λ _ _ _ _ _ _ _. tt };

    fn get(&mut self, alloc: Global, name: &Word) -> Got {
        match read_file(self.rt, alloc, name) {
            Ok(Some(bytes)) => Got::Found(bytes),
            Ok(None) => Got::Missing,
            Err(error) if error.kind() == ErrorKind::OutOfMemory => Got::OutOfMemory,
            Err(_) => {
                self.fail();
                Got::Failed
            }
        }
    }

    fn create(&mut self, name: &Word) -> Wrote {
        let done = self.make_file(name);
        self.wrote(done)
    }

    fn append(&mut self, name: &Word, bytes: &[u8]) -> Wrote {
        let done = self.append_to(name, bytes);
        self.wrote(done)
    }

    fn faults(&self) -> u64 {
        self.faults
    }
}
