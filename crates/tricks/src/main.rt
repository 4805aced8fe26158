//! The program `tricks`: the words of the command line, the folder that it is run in, standard output, and a door at the
//! port that the words name, handed to the top call. All that matters is decided there.
#![tactic(auto)]

use std::alloc::Global;
use std::process::ExitCode;
use std::rt::{Env, Files};
use std::sync::Wait;
use std::thread::Threads;
use std::{env, fs, io};
use trick_base::Word;
use trick_outside::{Door, EndedDoor, MemoryOut, NoGate, ScriptIn, Shelf, Sink, ThreadSpawner};
use trick_outside_folder::{Folder, StandardOutput};
use trick_outside_tcp::TcpDoor;
use trick_top::{port_wanted, tricks};
use trick_top_alone::print_out_of_memory;

/// The status where standard output cannot be written.
const NO_OUTPUT: u8 = 8;

/// Three files that are open and never read or written. Where a standard stream was closed before the
/// program began one of them has its number, so that no file of a run has it, and printing there fails.
fn hold_streams<R: Files>(rt: &R) -> io::Result<[R::File; 3]> {
    Ok([fs::open(rt, "/")?, fs::open(rt, "/")?, fs::open(rt, "/")?])
}

/// The words of the command line, without the program's name.
fn read_words<R: Env + AllocGlobal>(rt: &R, alloc: Global) -> io::Result<Vec<Word>> {
    let mut words = Vec::new(alloc);
    for word in env::args(rt)?.skip(1) {
        words.push(Word::from_vec(word.into_bytes()))?;
    }
    Ok(words)
}

/// Does what the words ask for, with the clients that this door gives. The status of the program.
fn status_of<F: Shelf, O: Sink, D, R>(
    rt: R,
    alloc: Global,
    words: &[Word],
    shelf: &mut F,
    out: &mut O,
    door: D,
) -> u8
where
    D: Door + Send + Drop + 'static,
    D::In: Send + Drop + 'static,
    D::Out: Send + Drop + 'static,
    R: Threads + Wait + Copy + Send + Drop + 'static,
{
    let spawner = ThreadSpawner::new();
    tricks(rt, alloc, words, shelf, out, door, spawner, NoGate).status
}

fn main(rt: HostRuntime) -> ExitCode {
    let alloc = rt.alloc();
    let Ok(_streams) = hold_streams(&rt) else {
        return ExitCode::from(NO_OUTPUT);
    };
    let mut out = StandardOutput::new(&rt);
    let words = match read_words(&rt, alloc) {
        Ok(words) => words,
        Err(error) if error.kind() == io::ErrorKind::OutOfMemory => {
            return ExitCode::from(print_out_of_memory(&mut out));
        }
        // Words that are no text ask for no command.
        Err(_) => Vec::new(alloc),
    };
    let mut shelf = Folder::new(&rt, alloc);
    let status = match port_wanted(alloc, &words) {
        Ok(Some(port)) => {
            let door = TcpDoor::open(rt, port);
            status_of(rt, alloc, &words, &mut shelf, &mut out, door)
        }
        // No client comes.
        Ok(None) => {
            let door: EndedDoor<ScriptIn, MemoryOut> = EndedDoor::new();
            status_of(rt, alloc, &words, &mut shelf, &mut out, door)
        }
        Err(_) => print_out_of_memory(&mut out),
    };
    ExitCode::from(status)
}
