//! The file of a panel, which is loaded and printed again, and files that differ from it.

use std::alloc::{AllocError, Global};
use trick_base::Word;
use trick_codes::{LoadFault, Range};
use trick_codes_example::{Gauge, Mode, Readings, load, print};

const LINES: [&[u8]; 10] = [
    b"panel = 1;",
    b"turn = 7;",
    b"mode = Freeze;",
    b"tank.level = -5;",
    b"valve = 1;",
    b"last = 3,0;",
    b"notes = 2;",
    b"note[0] = 12;",
    b"note[1] = 0;",
    b"end;",
];

// The line that is another, counted from 1, what stands there, and what is told of that file.
const OTHERS: [(usize, &[u8], LoadFault); 37] = [
    (2, b"turn = +7;", LoadFault::BadLine { line: 2 }),
    (2, b"turn = 07;", LoadFault::BadLine { line: 2 }),
    (2, b"turn = -0;", LoadFault::BadLine { line: 2 }),
    (2, b"turn = ;", LoadFault::BadLine { line: 2 }),
    (2, b"turn = 7", LoadFault::BadLine { line: 2 }),
    (2, b"turn=7;", LoadFault::BadLine { line: 2 }),
    (2, b" = 7;", LoadFault::BadLine { line: 2 }),
    (2, b"end;", LoadFault::BadLine { line: 2 }),
    (2, b"turn = 7;\n", LoadFault::BadLine { line: 3 }),
    (3, b"mode = Off;", LoadFault::BadLine { line: 3 }),
    (3, b"mode = 1;", LoadFault::BadLine { line: 3 }),
    (4, b"tank.level = -;", LoadFault::BadLine { line: 4 }),
    (4, b"tank.level = -0;", LoadFault::BadLine { line: 4 }),
    (4, b"tank.level = 01;", LoadFault::BadLine { line: 4 }),
    (6, b"last = 3;", LoadFault::BadLine { line: 6 }),
    (6, b"last = 3,;", LoadFault::BadLine { line: 6 }),
    (6, b"last = nil;", LoadFault::BadLine { line: 6 }),
    (7, b"notes = 3;", LoadFault::BadLine { line: 10 }),
    (10, b"end;;", LoadFault::BadLine { line: 10 }),
    // Lines with another name than the one that is due.
    (1, b"Panel = 1;", LoadFault::WrongPlan { line: 1 }),
    (4, b"valve = 1;", LoadFault::WrongPlan { line: 4 }),
    (6, b"mode = Run;", LoadFault::WrongPlan { line: 6 }),
    (7, b"notes = 1;", LoadFault::WrongPlan { line: 9 }),
    (9, b"note[2] = 0;", LoadFault::WrongPlan { line: 9 }),
    (10, b"x y = z;", LoadFault::WrongPlan { line: 10 }),
    // Numbers that are written rightly and out of their ranges.
    (1, b"panel = 0;", LoadFault::OutOfRange { line: 1 }),
    (1, b"panel = 2;", LoadFault::OutOfRange { line: 1 }),
    (
        2,
        b"turn = 9223372036854775808;",
        LoadFault::OutOfRange { line: 2 },
    ),
    (2, b"turn = -1;", LoadFault::OutOfRange { line: 2 }),
    (4, b"tank.level = -6;", LoadFault::OutOfRange { line: 4 }),
    (4, b"tank.level = 11;", LoadFault::OutOfRange { line: 4 }),
    (5, b"valve = -1;", LoadFault::OutOfRange { line: 5 }),
    (6, b"last = 3,2;", LoadFault::OutOfRange { line: 6 }),
    (7, b"notes = 1001;", LoadFault::OutOfRange { line: 7 }),
    (
        8,
        b"note[0] = 4294967296;",
        LoadFault::OutOfRange { line: 8 },
    ),
    // More than the file.
    (10, b"end;\nx", LoadFault::Trailing { at: 119 }),
    (10, b"end;\n", LoadFault::Trailing { at: 119 }),
];

// A tank's level from -5 to 10, and a valve of 0 or 1.
fn gauges(alloc: Global) -> Result<Vec<Gauge>, AllocError> {
    let level = Gauge {
        name: Word::from_bytes(alloc, b"tank.level")?,
        range: Range {
            below: 5,
            above: 10,
        },
    };
    let valve = Gauge {
        name: Word::from_bytes(alloc, b"valve")?,
        range: Range { below: 0, above: 1 },
    };
    let mut gauges = Vec::new(alloc);
    gauges.push(level)?;
    gauges.push(valve)?;
    Ok(gauges)
}

// The file, with another line, counted from 1, in the place of that one; none is counted 0.
fn file(alloc: Global, line: usize, text: &[u8]) -> Result<Vec<u8>, AllocError> {
    let mut all = Vec::new(alloc);
    for (place, right) in LINES.iter().enumerate() {
        if place + 1 == line {
            all.extend_from_slice(text)?;
        } else {
            all.extend_from_slice(right)?;
        }
        all.push(10)?;
    }
    Ok(all)
}

fn shows_the_file(readings: &Readings) -> bool {
    readings.turn == 7
        && readings.mode == Mode::Freeze
        && readings.values.as_slice() == [-5, 1].as_slice()
        && readings.notes.as_slice() == [12, 0].as_slice()
}

// Whether the file is loaded, and printed again as it is.
fn is_printed_again(alloc: Global, gauges: &[Gauge], text: &[u8]) -> Result<bool, AllocError> {
    match load(alloc, gauges, text) {
        Ok(readings) => {
            let again = print(alloc, gauges, &readings)?;
            Ok(shows_the_file(&readings) && again.as_slice() == text)
        }
        Err(_) => Ok(false),
    }
}

// The refusal of a text.
fn refusal(alloc: Global, gauges: &[Gauge], text: &[u8]) -> Option<LoadFault> {
    load(alloc, gauges, text).err()
}

// Whether each proper beginning of the file is refused as one that is cut.
fn are_cut(alloc: Global, gauges: &[Gauge], text: &[u8]) -> bool {
    for at in 0..text.len() {
        if refusal(alloc, gauges, &text[..at]) != Some(LoadFault::Truncated { at }) {
            return false;
        }
    }
    true
}

// Whether the file is loaded, and no proper beginning of it.
fn loads_the_whole(alloc: Global) -> Result<bool, AllocError> {
    let gauges = gauges(alloc)?;
    let text = file(alloc, 0, b"")?;
    let again = is_printed_again(alloc, &gauges, &text)?;
    Ok(again && are_cut(alloc, &gauges, &text))
}

// What is told of the file with another line, counted from 1.
fn fault(alloc: Global, line: usize, text: &[u8]) -> Result<Option<LoadFault>, AllocError> {
    let gauges = gauges(alloc)?;
    let other = file(alloc, line, text)?;
    Ok(refusal(alloc, &gauges, &other))
}

#[test]
fn loads_the_file_and_refuses_others(rt: HostRuntime) {
    let alloc = rt.alloc();
    assert!(rt; loads_the_whole(alloc).expect(&rt, "memory"));
    for (line, text, want) in OTHERS {
        assert_eq!(rt;
            fault(alloc, line, text).expect(&rt, "memory"),
            Some(want),
            "{text:?}"
        );
    }
}
