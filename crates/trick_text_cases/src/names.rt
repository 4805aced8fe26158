//! What names stand for, and the methods that those of a class call.

use crate::call::{Call, number_of};
use std::alloc::{AllocError, Global};
use trick_base::{Items, Word};
use trick_cases_report::Report;
use trick_check_names::{Member, Names, calls_of_class, laws};
use trick_lang::syntax::{ClassPart, Definition, SDefine};
use trick_sdef::read_sdef;

// Makes a name known, and adds whether it was known.
fn add(
    alloc: Global,
    names: &mut Names<u64>,
    name: &str,
    meaning: u64,
    report: &mut Report,
) -> Result<(), AllocError> {
    let name = Word::from_bytes(alloc, name.as_bytes())?;
    let was = names.add(&name, meaning)?;
    report.word("known before: ");
    report.value(was);
    report.word(",");
    Ok(())
}

// Adds what a name stands for.
fn ask(
    alloc: Global,
    names: &Names<u64>,
    name: &str,
    report: &mut Report,
) -> Result<(), AllocError> {
    let name = Word::from_bytes(alloc, name.as_bytes())?;
    report.code(&names.meaning(&name));
    report.word(" of");
    Ok(())
}

// Does what a word says: `fuel=7` makes a name known and tells whether it was, `keep:1` forgets all names but the
// oldest so many, and any other word asks what it stands for.
fn change(
    alloc: Global,
    names: &mut Names<u64>,
    word: &str,
    report: &mut Report,
) -> Result<(), AllocError> {
    if let Some(count) = word.strip_prefix("keep:") {
        names.forget(number_of(count) as usize);
        report.word("kept of");
        return Ok(());
    }
    match word.split_once('=') {
        Some((name, number)) => add(alloc, names, name, number_of(number), report),
        None => ask(alloc, names, word, report),
    }
}

// Adds how many names are known, and each with what it stands for.
fn known(names: &Names<u64>, report: &mut Report) {
    report.number(" ", names.len() as u64, " names");
    for place in 0..names.len() {
        let (name, meaning) = names.entry(place);
        report.word(" ");
        report.bytes(name);
        report.number("=", meaning, "");
    }
    report.word("\n");
}

/// What words make of names, after each of them.
pub(crate) fn names_of(
    alloc: Global,
    call: &Call<'_>,
    report: &mut Report,
) -> Result<(), AllocError> {
    laws::worked_files_are_answered();
    let mut names = Names::new(alloc);
    for word in call.words.split_terminator(' ') {
        change(alloc, &mut names, word, report)?;
        known(&names, report);
    }
    Ok(())
}

// The parts of the class of this name.
fn parts_of<'s>(sdef: &'s SDefine, class: &str) -> &'s [ClassPart] {
    for definition in sdef.definitions.as_slice() {
        if let Definition::Class { name, parts } = definition {
            if name.is(class.as_bytes()) {
                return parts.as_slice();
            }
        }
    }
    &[]
}

// Makes a method known, with its part of the class.
fn add_method(
    alloc: Global,
    members: &mut Names<Member>,
    name: &str,
    part: u64,
) -> Result<(), AllocError> {
    let name = Word::from_bytes(alloc, name.as_bytes())?;
    members.add(&name, Member::Method(part as usize))?;
    Ok(())
}

// The members that words name: `burn=1` is a method, with its part of the class from 0.
fn members_of(alloc: Global, words: &str) -> Result<Names<Member>, AllocError> {
    let mut members = Names::new(alloc);
    for word in words.split_terminator(' ') {
        if let Some((name, part)) = word.split_once('=') {
            add_method(alloc, &mut members, name, number_of(part))?;
        }
    }
    Ok(members)
}

// Adds the parts that a part calls.
fn callees(callees: &Items<usize>, report: &mut Report) {
    report.word(" [");
    for callee in callees.as_slice() {
        report.number(" ", *callee as u64, "");
    }
    report.word(" ]");
}

// Adds for each part those that it calls.
fn all_callees(calls: &[Items<usize>], report: &mut Report) {
    report.number("", calls.len() as u64, " parts");
    for called in calls {
        callees(called, report);
    }
}

// Adds for each part of a class those that it calls, where the class has these members.
fn called(
    alloc: Global,
    parts: &[ClassPart],
    members: &Names<Member>,
    report: &mut Report,
) -> Result<(), AllocError> {
    let calls = calls_of_class(alloc, parts, members)?;
    all_callees(&calls, report);
    Ok(())
}

// Adds for each part of a class those that it calls, where the class has the members that words name.
fn shown(
    alloc: Global,
    parts: &[ClassPart],
    words: &str,
    report: &mut Report,
) -> Result<(), AllocError> {
    let members = members_of(alloc, words)?;
    called(alloc, parts, &members, report)
}

/// For each part of the class that the first word names those that it calls, where the class has the members of the
/// other words alone.
pub(crate) fn calls_of(
    alloc: Global,
    call: &Call<'_>,
    report: &mut Report,
) -> Result<(), AllocError> {
    match read_sdef(alloc, call.text) {
        Ok(sdef) => shown(alloc, parts_of(&sdef, call.word(0)), call.words, report),
        Err(_) => {
            report.word("no S_define");
            Ok(())
        }
    }
}
