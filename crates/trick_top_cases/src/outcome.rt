//! What a command comes to.

use crate::text::{Text, find};
use std::alloc::{AllocError, Global};
use std::sync::Wait;
use std::thread::Threads;
use trick_base::Word;
use trick_outside::{
    EndedDoor, ListSpawner, MemoryOut, MemoryShelf, MemorySink, NoGate, ScriptIn, Shelf, Sink,
    Spawner,
};
use trick_top::tricks;
use trick_top_alone::tricks_alone;

/// What the next command is done with.
#[derive(Drop)]
pub(crate) struct Setting {
    /// The calls of the shelf that are to fail.
    pub(crate) failing: Vec<u64>,
    /// The writes of the sink that are to fail.
    pub(crate) sink: Vec<u64>,
    /// How many bytes of a piece the sink takes at most at a time; at least one is taken.
    pub(crate) taking: u64,
    /// The names of the only files that it begins with; with none it begins with all.
    pub(crate) only: Option<Vec<Word>>,
}

impl Setting {
    /// Nothing fails, and all of the files are there.
    pub(crate) fn new(alloc: Global) -> Setting {
        Setting {
            failing: Vec::new(alloc),
            sink: Vec::new(alloc),
            taking: u64::MAX,
            only: None,
        }
    }

    /// Whether a command begins with this file.
    fn has(&self, name: &[u8]) -> bool {
        is_among(self.only.as_ref(), name)
    }
}

/// Whether a name is one of these, which are all where none are said.
pub(crate) fn is_among(names: Option<&Vec<Word>>, name: &[u8]) -> bool {
    match names {
        Some(names) => names.iter().any(|one| one.is(name)),
        None => true,
    }
}

/// A command, and what it is done with.
#[derive(Clone, Copy)]
pub(crate) struct Given<'g> {
    pub(crate) words: &'g [Word],
    pub(crate) setting: &'g Setting,
    /// The files that are there before it.
    pub(crate) before: &'g [Text],
}

impl<'g> Given<'g> {
    /// Another command with the same.
    pub(crate) fn with_words(self, words: &'g [Word]) -> Given<'g> {
        Given {
            words,
            setting: self.setting,
            before: self.before,
        }
    }
}

/// What a command came to.
#[derive(Drop)]
pub(crate) struct Outcome {
    pub(crate) status: u8,
    /// How many calls of the shelf failed.
    pub(crate) shelf_faults: u64,
    /// How many calls of the sink failed.
    pub(crate) sink_faults: u64,
    /// What was printed.
    pub(crate) printed: Vec<u8>,
    /// The files that are new or have other bytes, in the order of their names.
    pub(crate) written: Vec<Text>,
    /// The names of the files that it was not given and wrote as they are.
    pub(crate) same: Vec<Vec<u8>>,
}

/// Whether two lists of files have the same names and bytes.
fn are_same(one: &[Text], other: &[Text]) -> bool {
    if one.len() != other.len() {
        return false;
    }
    for (file, twin) in one.iter().zip(other) {
        if file.name != twin.name || file.bytes != twin.bytes {
            return false;
        }
    }
    true
}

impl Outcome {
    /// This status, where nothing failed, was printed or written.
    fn new(alloc: Global, status: u8) -> Outcome {
        Outcome {
            status,
            shelf_faults: 0,
            sink_faults: 0,
            printed: Vec::new(alloc),
            written: Vec::new(alloc),
            same: Vec::new(alloc),
        }
    }

    /// Adds a file of the shelf where it is new or has other bytes than before, and its name where the command was not
    /// given it.
    fn add_file(
        &mut self,
        alloc: Global,
        given: Given,
        name: &[u8],
        bytes: &[u8],
    ) -> Result<(), AllocError> {
        if !is_same(given.before, name, bytes) {
            self.written.push(Text::from_bytes(alloc, name, bytes)?)?;
        } else if !given.setting.has(name) {
            self.same.push(Vec::from_slice(alloc, name)?)?;
        }
        Ok(())
    }

    /// Adds these files of the shelf.
    fn add_files(
        &mut self,
        alloc: Global,
        given: Given,
        shelf: &MemoryShelf,
        names: &[Vec<u8>],
    ) -> Result<(), AllocError> {
        for name in names {
            let bytes = shelf.file(name).unwrap_or(&[]);
            self.add_file(alloc, given, name, bytes)?;
        }
        Ok(())
    }

    /// Adds what the command did to its shelf and its sink.
    fn add(
        &mut self,
        alloc: Global,
        given: Given,
        shelf: &MemoryShelf,
        sink: &MemorySink,
    ) -> Result<(), AllocError> {
        self.shelf_faults = shelf.faults();
        self.sink_faults = sink.faults();
        self.printed.extend_from_slice(sink.bytes())?;
        let names = names_of(alloc, shelf)?;
        let done = self.add_files(alloc, given, shelf, &names);
        drop(names);
        done
    }

    /// Whether another command came to the same.
    pub(crate) fn is_same(&self, other: &Outcome) -> bool {
        self.status == other.status
            && self.shelf_faults == other.shelf_faults
            && self.sink_faults == other.sink_faults
            && self.printed == other.printed
            && are_same(&self.written, &other.written)
            && self.same == other.same
    }
}

/// A shelf with those of the files that a command begins with.
fn shelf_of(alloc: Global, setting: &Setting, files: &[Text]) -> Result<MemoryShelf, AllocError> {
    let mut shelf = MemoryShelf::failing(alloc, setting.failing.clone()?);
    for file in files {
        if setting.has(&file.name) {
            shelf = shelf.with_file(&file.name, &file.bytes)?;
        }
    }
    Ok(shelf)
}

/// The sink of a command.
fn sink_of(alloc: Global, setting: &Setting) -> Result<MemorySink, AllocError> {
    let sink = MemorySink::failing(alloc, setting.sink.clone()?);
    match usize::try_from(setting.taking) {
        Ok(most) if most > 0 => Ok(sink.with_most(most)),
        _ => Ok(sink),
    }
}

/// The names of the files of a shelf, in their order.
fn names_of(alloc: Global, shelf: &MemoryShelf) -> Result<Vec<Vec<u8>>, AllocError> {
    let mut names = Vec::new(alloc);
    for name in shelf.names()? {
        names.push(name.into_vec())?;
    }
    names.sort()?;
    Ok(names)
}

/// Whether a file had these bytes before.
fn is_same(before: &[Text], name: &[u8], bytes: &[u8]) -> bool {
    match find(before, name) {
        Some(file) => file.bytes.as_slice() == bytes,
        None => false,
    }
}

/// What a command with this status did to its shelf and its sink.
fn told(
    alloc: Global,
    given: Given,
    shelf: &MemoryShelf,
    sink: &MemorySink,
    status: u8,
) -> Result<Outcome, AllocError> {
    let mut outcome = Outcome::new(alloc, status);
    if let Err(error) = outcome.add(alloc, given, shelf, sink) {
        drop(outcome);
        return Err(error);
    }
    Ok(outcome)
}

/// What a command comes to on this shelf.
fn outcome_on(alloc: Global, given: Given, shelf: &mut MemoryShelf) -> Result<Outcome, AllocError> {
    let mut sink = sink_of(alloc, given.setting)?;
    let status = tricks_alone(alloc, given.words, shelf, &mut sink);
    let outcome = told(alloc, given, shelf, &sink, status);
    drop(sink);
    outcome
}

/// What a command comes to.
pub(crate) fn outcome_of(alloc: Global, given: Given) -> Result<Outcome, AllocError> {
    let mut shelf = shelf_of(alloc, given.setting, given.before)?;
    let outcome = outcome_on(alloc, given, &mut shelf);
    drop(shelf);
    outcome
}

/// What a replay comes to with this journal beside the files.
pub(crate) fn replay_of(
    alloc: Global,
    given: Given,
    journal: &Text,
) -> Result<Outcome, AllocError> {
    let shelf = shelf_of(alloc, given.setting, given.before)?;
    let mut shelf = shelf.with_file(&journal.name, &journal.bytes)?;
    let outcome = outcome_on(alloc, given, &mut shelf);
    drop(shelf);
    outcome
}

/// What a command comes to by threads on this shelf, where these starts are refused; and how many were.
fn in_threads_on<R: Threads + Wait + Copy + Send + Drop + 'static>(
    rt: R,
    alloc: Global,
    given: Given,
    shelf: &mut MemoryShelf,
    refused: &[u64],
) -> Result<(Outcome, u64), AllocError> {
    let spawner = ListSpawner::refusing(Vec::from_slice(alloc, refused)?);
    let mut sink = sink_of(alloc, given.setting)?;
    let door: EndedDoor<ScriptIn, MemoryOut> = EndedDoor::new();
    let finished = tricks(
        rt,
        alloc,
        given.words,
        shelf,
        &mut sink,
        door,
        spawner,
        NoGate,
    );
    let starts = finished.spawner.faults();
    let outcome = told(alloc, given, shelf, &sink, finished.status);
    drop(finished);
    drop(sink);
    Ok((outcome?, starts))
}

/// What a command comes to by threads, where these starts are refused; and how many were.
pub(crate) fn in_threads_of<R: Threads + Wait + Copy + Send + Drop + 'static>(
    rt: R,
    alloc: Global,
    given: Given,
    refused: &[u64],
) -> Result<(Outcome, u64), AllocError> {
    let mut shelf = shelf_of(alloc, given.setting, given.before)?;
    let done = in_threads_on(rt, alloc, given, &mut shelf, refused);
    drop(shelf);
    done
}
