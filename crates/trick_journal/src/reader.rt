//! Reading, line by line.

ghost use Rattle.std.specs.Prelude.{◌≡◌, ◌≤◌, ◌<◌, ◌^◌, ◌++◌, [], ℕ, length};
ghost use Rattle.trick_codes.specs.Lines.{first_line as first_line_of};
ghost use Rattle.trick_journal.specs.Fronts.{front_text, going};
ghost use Rattle.trick_journal.specs.Refusals.{Reads, ReadsBegin, ReadsTitle};
ghost use Rattle.trick_journal.specs.Rules.{Finishes, Keeps};
ghost use Rattle.trick_model.specs.Plan.{Plan as PlanOf};
ghost use Rattle.trick_model.specs.PlanOf.{plan_of};
ghost use Rattle.trick_model.specs.Time.{last_turn};

use crate::journal_fault::JournalFault;
use crate::row::{Row, said_by, turn_by};
use crate::rows::Rows;
use std::alloc::Global;
use trick_codes::first_line;
use trick_model::{Journal, Plan};

// The first line, with its line feed if it has one, and what stands after it.
#[tactic(auto, using(crate::proofs::Behind::line_short, crate::proofs::Behind::rest_behind))]
fn next_line(rest: &[u8]) -> (&[u8], &[u8])
    ensures line { result.0.now ≡ first_line_of rest.now }
    ensures all { rest.now ≡ result.0.now ++ result.1.now }
{
    let line = first_line(rest);
    let (_, behind) = rest.split_at(line.len());
    (line, behind)
}

// Reads the title.
#[tactic(auto, using(crate::proofs::Answering::empty_text, crate::proofs::Answering::no_title))]
fn read_title(text: &[u8]) -> Result<&[u8], JournalFault>
    ensures { (p : PlanOf) → (start : ℕ) → ReadsTitle p start text.now result }
{
    if text.is_empty() {
        return Err(JournalFault::NoEnd { line: 1 });
    }
    let (line, rest) = next_line(text);
    if line != b"tricks journal 1\n".as_slice() {
        return Err(JournalFault::BadLine { line: 1 });
    }
    Ok(rest)
}

// Reads the line that says where the journal begins.
#[tactic(auto, using(crate::proofs::Answering::title_alone, crate::proofs::Answering::begun))]
fn read_begin(start: u64, text: &[u8]) -> Result<(u64, &[u8]), JournalFault>
    ensures { (p : PlanOf) → ReadsBegin p start text.now result }
{
    if text.is_empty() {
        return Err(JournalFault::NoEnd { line: 2 });
    }
    let (line, rest) = next_line(text);
    match turn_by(b"from ", line) {
        Some(from) => {
            if from > start {
                return Err(JournalFault::BadLine { line: 2 });
            }
            Ok((from, rest))
        }
        None => Err(JournalFault::BadLine { line: 2 }),
    }
}

// The journal that ends at this turn, where nothing stands after the end.
fn finish(rows: Rows, end: u64, rest: &[u8]) -> Result<Journal, JournalFault>
    requires keeps { Keeps rows }
    requires range { end ≤ last_turn }
    requires room { length rows.entries < 2 ^ 63 }
    ensures { Finishes rows end rest.now result }
{
    let number = rows.entries.len() + 3;
    if !rows.ends(end) {
        return Err(JournalFault::NotRising { line: number });
    }
    if !rest.is_empty() {
        return Err(JournalFault::BadLine { line: number + 1 });
    }
    Ok(Journal {
        from: rows.from,
        entries: rows.entries,
        end,
    })
}

// Reads the entries and the end of a journal that begins at this turn.
fn read_rows(alloc: Global, plan: &Plan, from: u64, text: &[u8]) -> Result<Journal, JournalFault>
    ensures { (start : ℕ) → from ≤ start → from ≤ last_turn →
        Reads (plan_of plan.now) start (front_text (going from []) ++ text.now) result }
{
    let mut rows = Rows::new(alloc, from);
    let mut here = text;
    while let [_, ..] = here {
        let (line, rest) = next_line(here);
        match said_by(line) {
            Some(Row::Note(turn, entry)) => rows.take(alloc, plan, turn, entry)?,
            Some(Row::End(turn)) => return finish(rows, turn, rest),
            None => {
                return Err(JournalFault::BadLine {
                    line: rows.entries.len() + 3,
                });
            }
        }
        here = rest;
    }
    Err(JournalFault::NoEnd {
        line: rows.entries.len() + 3,
    })
}

/// The journal of which this is the text, or why it is none of this plan for a run that starts at
/// this turn. docs/FORMATS.md has the form, the rules and the refusals. The cost of an entry grows
/// with the logarithm of the sessions that are there.
pub fn read(alloc: Global, plan: &Plan, start: u64, text: &[u8]) -> Result<Journal, JournalFault>
    ensures { Reads (plan_of plan.now) start text.now result }
{
    let rest = read_title(text)?;
    let (from, rest) = read_begin(start, rest)?;
    read_rows(alloc, plan, from, rest)
}
