//! Whole runs by the top calls, and what they come to.

use crate::gates::Trial;
use crate::links::TestIn;
use crate::plans::Texts;
use std::alloc::{AllocError, Global};
use std::collections::VecDeque;
use std::process::Abort;
use std::rt::Clock;
use std::sync::Wait;
use std::thread::Threads;
use trick_base::Word;
use trick_outside::{
    Door, LinkIn, LinkOut, ListSpawner, MemoryOut, MemoryShelf, MemorySink, ScriptDoor, Shelf,
    Sink, Spawner,
};
use trick_top::tricks;
use trick_top_alone::tricks_alone;

/// Nothing is wrong with a run.
pub(crate) const RIGHT: &str = "nothing is wrong";

/// The causes of a leave.
const CAUSES: [&[u8]; 7] = [
    b"Exit",
    b"HungUp",
    b"LinkFault",
    b"LongLine",
    b"Slow",
    b"NoThread",
    b"OutOfMemory",
];

/// What is wanted of a run of status 0 with one client.
#[derive(Clone, Copy)]
pub(crate) struct Wants<'a> {
    /// All that the client is sent.
    pub(crate) sent: &'a [u8],
    /// A part of the journal.
    pub(crate) in_journal: &'a [u8],
    /// A part of the last state.
    pub(crate) in_state: &'a [u8],
    /// The log of group g, where there is one.
    pub(crate) log: &'a [u8],
    /// How the printed line begins.
    pub(crate) printed: &'a [u8],
}

/// What is outside of a run: its door, which calls of its other forms in memory fail, and the gate that its workers
/// pass.
#[derive(Drop)]
pub(crate) struct Outside<C: Clock> {
    pub(crate) door: ScriptDoor<TestIn, MemoryOut>,
    /// Calls of the shelf, from 0.
    pub(crate) shelf: Vec<u64>,
    /// Writes of the sink, from 0.
    pub(crate) sink: Vec<u64>,
    /// Starts of threads, from 0.
    pub(crate) starts: Vec<u64>,
    pub(crate) gate: Trial<C>,
}

impl<C: Clock> Outside<C> {
    /// A door, forms of which no call fails, and a gate at which nobody waits.
    pub(crate) fn at(alloc: Global, door: ScriptDoor<TestIn, MemoryOut>) -> Outside<C> {
        Outside {
            door,
            shelf: Vec::new(alloc),
            sink: Vec::new(alloc),
            starts: Vec::new(alloc),
            gate: Trial::Pass,
        }
    }
}

/// How often the forms outside of a run failed.
#[derive(Clone, Copy)]
pub(crate) struct Failures {
    pub(crate) shelf: u64,
    pub(crate) sink: u64,
    pub(crate) door: u64,
    pub(crate) starts: u64,
}

/// What a run came to that was served.
#[derive(Drop)]
pub(crate) struct Came {
    pub(crate) status: u8,
    printed: Vec<u8>,
    pub(crate) failed: Failures,
    shelf: MemoryShelf,
    door: ScriptDoor<TestIn, MemoryOut>,
}

// Whether a part stands in a text.
fn has(text: &[u8], part: &[u8]) -> bool {
    text.windows(part.len().max(1)).any(|piece| piece == part)
}

impl Came {
    /// The bytes of a file, and none where it is not there.
    pub(crate) fn file(&self, name: &[u8]) -> &[u8] {
        self.shelf.file(name).unwrap_or(&[])
    }

    /// What the only client was sent. None where it is not back, hung up, under number 1.
    pub(crate) fn sent(&self) -> Option<&[u8]> {
        match self.door.returned() {
            [_client] => self.sent_to(1),
            _ => None,
        }
    }

    /// What the client of this number was sent. None where it is not back, hung up.
    pub(crate) fn sent_to(&self, number: u32) -> Option<&[u8]> {
        let client = self
            .door
            .returned()
            .iter()
            .find(|client| client.number == number)?;
        if !client.output.is_hung_up() {
            return None;
        }
        Some(client.output.bytes())
    }

    /// The names of all files.
    pub(crate) fn names(&self) -> Result<Vec<Word>, AllocError> {
        self.shelf.names()
    }

    /// Whether it came to what one thread came to: to its status, its line and all of its files.
    pub(crate) fn is(&self, other: &Alone) -> Result<bool, AllocError> {
        let is_same = self.status == other.status && self.printed == other.printed;
        Ok(is_same && has_all(&self.shelf, &other.shelf)? && has_all(&other.shelf, &self.shelf)?)
    }

    /// Whether no client was taken.
    pub(crate) fn has_nobody(&self) -> bool {
        self.door.returned().is_empty()
    }

    /// Whether a link of a client failed.
    pub(crate) fn has_link_fault(&self) -> bool {
        self.door.returned().iter().any(|client| client.input.faults() > 0
            || client.output.faults() > 0)
    }

    /// Whether a session left by this cause.
    pub(crate) fn has_leave(&self, cause: &[u8]) -> bool {
        has(self.file(b"journal.txt"), cause)
    }

    /// Whether this is what was printed.
    pub(crate) fn has_printed(&self, line: &[u8]) -> bool {
        self.printed.as_slice() == line
    }

    /// Whether what was printed ends so.
    pub(crate) fn prints_at_end(&self, end: &[u8]) -> bool {
        self.printed.ends_with(end)
    }

    /// Whether the journal has this part.
    pub(crate) fn notes(&self, part: &[u8]) -> bool {
        has(self.file(b"journal.txt"), part)
    }

    /// Whether a session left by another cause than this.
    pub(crate) fn has_other_leave(&self, cause: &[u8]) -> bool {
        let journal = self.file(b"journal.txt");
        CAUSES
            .iter()
            .any(|other| *other != cause && has(journal, other))
    }

    // What is not as it is wanted.
    fn differs(&self, wants: &Wants<'_>) -> Option<&'static str> {
        if self.status != 0 || !self.printed.starts_with(wants.printed) {
            return Some("its end");
        }
        if self.sent() != Some(wants.sent) {
            return Some("what the client was sent");
        }
        if !has(self.file(b"journal.txt"), wants.in_journal) {
            return Some("its journal");
        }
        if !has(self.file(b"final.chk"), wants.in_state) {
            return Some("its last state");
        }
        if self.file(b"log_g.csv") != wants.log {
            return Some("its log");
        }
        None
    }
}

// Whether two shelves have the same files of these names.
fn have_same(names: &[Word], shelf: &MemoryShelf, other: &MemoryShelf) -> bool {
    for name in names {
        if shelf.file(name.as_slice()) != other.file(name.as_slice()) {
            return false;
        }
    }
    true
}

// Whether a shelf has all files of another, with their bytes.
fn has_all(shelf: &MemoryShelf, other: &MemoryShelf) -> Result<bool, AllocError> {
    let names = other.names()?;
    let have_same = have_same(&names, shelf, other);
    drop(names);
    Ok(have_same)
}

/// These words.
pub(crate) fn words(alloc: Global, texts: &[&[u8]]) -> Result<Vec<Word>, AllocError> {
    let mut words = Vec::new(alloc);
    for text in texts {
        words.push(Word::from_bytes(alloc, text)?)?;
    }
    Ok(words)
}

// A shelf with the texts of a plan.
fn with_texts(shelf: MemoryShelf, texts: Texts) -> Result<MemoryShelf, AllocError> {
    shelf
        .with_file(b"s", texts.s_define.as_bytes())?
        .with_file(b"i", texts.input.as_bytes())
}

/// A door that gives one client, over this link, and has then ended.
pub(crate) fn door_of(
    alloc: Global,
    input: TestIn,
) -> Result<ScriptDoor<TestIn, MemoryOut>, AllocError> {
    let mut clients = VecDeque::new(alloc);
    clients.push_back((input, MemoryOut::new(MemorySink::new(alloc))))?;
    Ok(ScriptDoor::new(alloc, clients))
}

/// A run of a plan by threads, with the clients of its door.
pub(crate) fn serve<R>(rt: R, texts: Texts, outside: Outside<R>) -> Came
where
    R: Threads + Wait + Clock + Abort + AllocGlobal + Copy + Send + Sync + Drop + 'static,
{
    let alloc = rt.alloc();
    let Outside {
        door,
        shelf,
        sink,
        starts,
        gate,
    } = outside;
    let words = words(alloc, &[b"run", b"s", b"i"]).expect(&rt, "memory");
    let mut shelf = with_texts(MemoryShelf::failing(alloc, shelf), texts).expect(&rt, "memory");
    let mut sink = MemorySink::failing(alloc, sink);
    let spawner = ListSpawner::refusing(starts);
    let finished = tricks(
        rt, alloc, &words, &mut shelf, &mut sink, door, spawner, gate,
    );
    drop(words);
    let printed = Vec::from_slice(alloc, sink.bytes()).expect(&rt, "memory");
    let failed = Failures {
        shelf: shelf.faults(),
        sink: sink.faults(),
        door: finished.door.faults(),
        starts: finished.spawner.faults(),
    };
    drop(sink);
    Came {
        status: finished.status,
        printed,
        failed,
        shelf,
        door: finished.door,
    }
}

/// What one thread came to.
#[derive(Drop)]
pub(crate) struct Alone {
    pub(crate) status: u8,
    pub(crate) printed: Vec<u8>,
    shelf: MemoryShelf,
}

impl Alone {
    /// The bytes of a file. None where it is not there.
    pub(crate) fn file(&self, name: &[u8]) -> Option<&[u8]> {
        self.shelf.file(name)
    }
}

// What one thread comes to that does what these words ask for.
fn on_one_thread(alloc: Global, words: &[Word], shelf: MemoryShelf) -> Result<Alone, AllocError> {
    let mut shelf = shelf;
    let mut sink = MemorySink::new(alloc);
    let status = tricks_alone(alloc, words, &mut shelf, &mut sink);
    let printed = Vec::from_slice(alloc, sink.bytes());
    drop(sink);
    match printed {
        Ok(printed) => Ok(Alone {
            status,
            printed,
            shelf,
        }),
        Err(error) => {
            drop(shelf);
            Err(error)
        }
    }
}

// The same with these words, and then with the texts of a plan and other files.
fn with_words(alloc: Global, texts: &[&[u8]], shelf: MemoryShelf) -> Result<Alone, AllocError> {
    let words = words(alloc, texts)?;
    let done = on_one_thread(alloc, &words, shelf);
    drop(words);
    done
}

/// The run of a plan on one thread.
pub(crate) fn by_one_thread(alloc: Global, texts: Texts) -> Result<Alone, AllocError> {
    let shelf = with_texts(MemoryShelf::new(alloc), texts)?;
    with_words(alloc, &[b"serial", b"s", b"i"], shelf)
}

/// The replay of a journal of a plan.
pub(crate) fn replay_of(alloc: Global, texts: Texts, journal: &[u8]) -> Result<Alone, AllocError> {
    let shelf = with_texts(MemoryShelf::new(alloc), texts)?.with_file(b"j", journal)?;
    with_words(alloc, &[b"replay", b"s", b"i", b"j"], shelf)
}

/// Whether the journal that a run of a plan wrote, replayed, gives the same files.
pub(crate) fn replays(alloc: Global, texts: Texts, came: &Came) -> Result<bool, AllocError> {
    let other = replay_of(alloc, texts, came.file(b"journal.txt"))?;
    let has_all = has_all(&other.shelf, &came.shelf);
    let is_ended = other.status == 0;
    drop(other);
    Ok(has_all? && is_ended)
}

/// What is wrong with a run of a plan, or that nothing is. Its journal, replayed, has to give its files.
pub(crate) fn judged(
    alloc: Global,
    texts: Texts,
    came: &Came,
    wants: &Wants<'_>,
) -> Result<&'static str, AllocError> {
    if let Some(part) = came.differs(wants) {
        return Ok(part);
    }
    if replays(alloc, texts, came)? {
        Ok(RIGHT)
    } else {
        Ok("the replay of its journal")
    }
}
