//! What clients are sent, and what their runs write.

use crate::gates::Trial;
use crate::links::{Signals, TestIn};
use crate::plans::{BESIDE, COUNTED, FROZEN, RECORDED, Texts, UNCOUNTED};
use crate::runs::{Outside, RIGHT, Wants, door_of, judged, serve, words};
use std::alloc::{AllocError, Global};
use std::collections::VecDeque;
use std::process::Abort;
use std::rt::Clock;
use std::sync::{Arc, Wait};
use std::thread::Threads;
use trick_outside::{MemoryOut, ScriptDoor, ScriptIn};
use trick_top::port_wanted;

/// What a client says that watches the counter and lets it run.
const WATCHES: &[u8] = b"trick.var_add(\"counter.n\")
trick.var_add(\"counter.zz\")
trick.var_cycle(1.0)
trick.exec_run()
";

/// What it is sent.
const WATCHED: &[u8] = b"0\t1\tBAD_REF\n0\t2\tBAD_REF\n0\t3\tBAD_REF\n";

/// What a client says that lets the counter run.
const RUNS: &[u8] = b"trick.exec_run()\n";

/// What a line of no form is answered.
const BAD: &[u8] = b"4\tbad command\n";

/// What the odd lines are answered: three are bad, and one asks for a name.
const ODD: &[u8] = b"4\tbad command\n4\tbad command\n4\tbad command\n1\t0\n";

/// Starts of threads that are refused: of who takes the clients, of who reads or writes for one, or of all.
const REFUSED: [&[u64]; 4] = [&[0], &[1], &[2], &[0, 1, 2, 3, 4, 5, 6, 7]];

// A link with these bytes, of which a read gives so many at most.
fn link(alloc: Global, bytes: &[u8], most: usize) -> Result<ScriptIn, AllocError> {
    let script = ScriptIn::new(alloc, Vec::from_slice(alloc, bytes)?);
    Ok(script.with_most(most.max(1)))
}

/// A run of a plan with one client, of whose lines a read gives so many bytes at most.
#[derive(Clone, Copy)]
struct Talk<'a> {
    texts: Texts,
    said: &'a [u8],
    most: usize,
}

// What is wrong with a run with one client, or that nothing is. Starts of these numbers are refused.
fn talked<R: Threads + Wait + Clock + Abort + AllocGlobal + Copy + Send + Sync + Drop + 'static>(
    rt: R,
    talk: Talk<'_>,
    refused: Vec<u64>,
    wants: &Wants<'_>,
) -> &'static str {
    let alloc = rt.alloc();
    let input = TestIn::of(link(alloc, talk.said, talk.most).expect(&rt, "memory"));
    let door = door_of(alloc, input).expect(&rt, "memory");
    let mut outside = Outside::at(alloc, door);
    outside.starts = refused;
    let came = serve(rt, talk.texts, outside);
    let wrong = judged(alloc, talk.texts, &came, wants);
    drop(came);
    wrong.expect(&rt, "memory")
}

#[test]
fn a_client_watches_a_run(rt: HostRuntime) {
    let wants = Wants {
        sent: WATCHED,
        in_journal: b"\n0 join 1\n",
        in_state: b"\ncounter.n = 4;\n",
        log: COUNTED,
        printed: b"ended ",
    };
    for most in [1000, 1] {
        let talk = Talk {
            texts: FROZEN,
            said: WATCHES,
            most,
        };
        let wrong = talked(rt, talk, Vec::new(rt.alloc()), &wants);
        assert!(rt; wrong == RIGHT, "{most} bytes a read: {wrong}");
    }
}

#[test]
fn refused_threads_serve_nobody(rt: HostRuntime) {
    let wants = Wants {
        sent: b"",
        in_journal: b"\n0 join 1\n0 leave 1 NoThread\nend ",
        in_state: b"\ncounter.n = 0;\n",
        log: UNCOUNTED,
        printed: b"ended ",
    };
    let talk = Talk {
        texts: FROZEN,
        said: WATCHES,
        most: 100,
    };
    for starts in REFUSED {
        let starts = Vec::from_slice(rt.alloc(), starts).expect(&rt, "memory");
        let wrong = talked(rt, talk, starts, &wants);
        assert!(rt; wrong == RIGHT, "{wrong}");
    }
}

// A line of so many letters, and then that the run may go on.
fn long_line(alloc: Global, length: usize) -> Result<Vec<u8>, AllocError> {
    let mut said = Vec::new(alloc);
    for _ in 0..length {
        said.push(b'x')?;
    }
    said.push(b'\n')?;
    said.extend_from_slice(RUNS)?;
    Ok(said)
}

#[test]
fn lines_are_as_long_as_they_may_be(rt: HostRuntime) {
    let alloc = rt.alloc();
    let heard = Wants {
        sent: BAD,
        in_journal: b" cmd 1 trick.exec_run()\n",
        in_state: b"\ncounter.n = 4;\n",
        log: COUNTED,
        printed: b"ended ",
    };
    let too_long = Wants {
        sent: b"",
        in_journal: b" leave 1 LongLine\n",
        in_state: b"\ncounter.n = 0;\n",
        log: UNCOUNTED,
        printed: b"ended ",
    };
    for length in 4094..4099 {
        let said = long_line(alloc, length).expect(&rt, "memory");
        let wants = if length <= 4096 { heard } else { too_long };
        let talk = Talk {
            texts: FROZEN,
            said: &said,
            most: 1000,
        };
        let wrong = talked(rt, talk, Vec::new(alloc), &wants);
        assert!(rt; wrong == RIGHT, "a line of {length}: {wrong}");
    }
}

// A thousand empty lines, bytes that are no text, alone and in lines that are right but for them, and that the run may
// go on.
fn odd_lines(alloc: Global) -> Result<Vec<u8>, AllocError> {
    let mut said = Vec::new(alloc);
    for _ in 0..1000 {
        said.push(b'\n')?;
    }
    said.extend_from_slice(b"\x00\xff\n")?;
    said.extend_from_slice(b"counter.n = 9\x00\n\xffcounter.n = 9\n")?;
    said.extend_from_slice(b"trick.var_exists(\"\x00\xff\")\n")?;
    said.extend_from_slice(RUNS)?;
    Ok(said)
}

#[test]
fn odd_lines_do_nothing(rt: HostRuntime) {
    let alloc = rt.alloc();
    let said = odd_lines(alloc).expect(&rt, "memory");
    let wants = Wants {
        sent: ODD,
        in_journal: b" cmd 1 trick.exec_run()\n",
        in_state: b"\ncounter.n = 4;\n",
        log: COUNTED,
        printed: b"ended ",
    };
    let talk = Talk {
        texts: FROZEN,
        said: &said,
        most: 1000,
    };
    let wrong = talked(rt, talk, Vec::new(alloc), &wants);
    assert!(rt; wrong == RIGHT, "{wrong}");
}

// A line of each byte but the line feed, and then that the run may go on.
fn byte_lines(alloc: Global) -> Result<Vec<u8>, AllocError> {
    let mut said = Vec::new(alloc);
    for byte in 0..=255u8 {
        if byte != b'\n' {
            said.push(byte)?;
            said.push(b'\n')?;
        }
    }
    said.extend_from_slice(RUNS)?;
    Ok(said)
}

// So many answers that a line is of no form.
fn bad_lines(alloc: Global, count: u32) -> Result<Vec<u8>, AllocError> {
    let mut sent = Vec::new(alloc);
    for _ in 0..count {
        sent.extend_from_slice(BAD)?;
    }
    Ok(sent)
}

#[test]
fn no_byte_is_a_line(rt: HostRuntime) {
    let alloc = rt.alloc();
    let said = byte_lines(alloc).expect(&rt, "memory");
    // All but the space, the tab and the carriage return, which say nothing.
    let sent = bad_lines(alloc, 252).expect(&rt, "memory");
    let wants = Wants {
        sent: &sent,
        in_journal: b" cmd 1 trick.exec_run()\n",
        in_state: b"\ncounter.n = 4;\n",
        log: COUNTED,
        printed: b"ended ",
    };
    let talk = Talk {
        texts: FROZEN,
        said: &said,
        most: 1000,
    };
    let wrong = talked(rt, talk, Vec::new(alloc), &wants);
    assert!(rt; wrong == RIGHT, "{wrong}");
}

#[test]
fn a_client_of_the_first_call_joins_in_turn_0(rt: HostRuntime) {
    let wants = Wants {
        sent: b"",
        in_journal: b"\n0 join 1\n",
        in_state: b"\ncounter.n = 4;\n",
        log: COUNTED,
        printed: b"ended turns=4 tic=3000001 faults=0 sessions=1\n",
    };
    let talk = Talk {
        texts: RECORDED,
        said: b"",
        most: 1,
    };
    let wrong = talked(rt, talk, Vec::new(rt.alloc()), &wants);
    assert!(rt; wrong == RIGHT, "{wrong}");
}

// Whether the line of a run whose door fails at its first call says so.
fn tells_of_its_door<
    R: Threads + Wait + Clock + Abort + AllocGlobal + Copy + Send + Sync + Drop + 'static,
>(rt: R) -> bool {
    let alloc = rt.alloc();
    let door: ScriptDoor<TestIn, MemoryOut> = ScriptDoor::failing(
        alloc,
        VecDeque::new(alloc),
        vec![in alloc; 0].expect(&rt, "memory"),
    );
    let came = serve(rt, RECORDED, Outside::at(alloc, door));
    let is_told = came.has_printed(b"ended turns=4 tic=3000001 faults=0 sessions=0 door=failed\n");
    drop(came);
    is_told
}

#[test]
fn a_door_that_fails_is_told(rt: HostRuntime) {
    let is_told = tells_of_its_door(rt);
    assert!(rt; is_told, "its line");
}

// The port that a run with this word for one wants.
fn wanted_port(alloc: Global, port: &[u8]) -> Result<Option<u16>, AllocError> {
    let words = words(alloc, &[b"run", b"s", b"i", b"--port", port])?;
    let wanted = port_wanted(alloc, &words);
    drop(words);
    wanted
}

#[test]
fn a_port_is_wanted_where_words_name_one(rt: HostRuntime) {
    let wanted = wanted_port(rt.alloc(), b"7000").expect(&rt, "memory");
    assert!(rt; wanted == Some(7000), "the port that is named");
    let wanted = wanted_port(rt.alloc(), b"0").expect(&rt, "memory");
    assert!(rt; wanted.is_none(), "0 is no port");
}

// What is wrong with a run whose client's lines come while the job of tic 0 is at work.
fn met<R: Threads + Wait + Clock + Abort + AllocGlobal + Copy + Send + Sync + Drop + 'static>(
    rt: R,
    wants: &Wants<'_>,
) -> &'static str {
    let alloc = rt.alloc();
    let signals = Arc::new(alloc, Signals::new()).expect(&rt, "memory");
    let said = b"counter.n = 100\ntrick.var_exists(\"counter.n\")\n";
    let input = TestIn::waiting(
        link(alloc, said, 1000).expect(&rt, "memory"),
        Arc::try_clone(&signals).expect(&rt, "memory"),
    );
    let mut outside = Outside::at(alloc, door_of(alloc, input).expect(&rt, "memory"));
    outside.gate = Trial::Wait(Arc::try_clone(&signals).expect(&rt, "memory"));
    let came = serve(rt, BESIDE, outside);
    let have_met = signals.have_met();
    let wrong = judged(alloc, BESIDE, &came, wants);
    drop(came);
    drop(signals);
    if have_met {
        wrong.expect(&rt, "memory")
    } else {
        "the job and the link do not meet"
    }
}

#[test]
fn lines_come_while_a_job_is_at_work(rt: HostRuntime) {
    let wants = Wants {
        sent: b"1\t1\n",
        in_journal: b"\n0 join 1\n1 cmd 1 counter.n = 100\n1 cmd 1 trick.var_exists(\"counter.n\")\n",
        in_state: b"\ncounter.n = 103;\n",
        log: b"",
        printed: b"ended turns=4 tic=3000001 faults=0 sessions=1\n",
    };
    let wrong = met(rt, &wants);
    assert!(rt; wrong == RIGHT, "{wrong}");
}
