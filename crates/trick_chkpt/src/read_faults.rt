//! Reading the lines of faults.

ghost use Rattle.std.specs.Prelude.{◌≡◌, ◌≤◌, ◌<◌, IfOk, length, min};
ghost use Rattle.trick_chkpt_lines.specs.Faults.{fault_code, fault_line, faults_lines, faults_of, job_code, job_texts as job_texts_of, kind_code, kind_word_at, most_faults, no_fault};
ghost use Rattle.trick_codes.specs.Code.{number as number_code, read};
ghost use Rattle.trick_codes.specs.Gives.{beside, bytes_of, Gives, Reads};
ghost use Rattle.trick_codes.specs.Lines.{fed, numbered, read_lines};
ghost use Rattle.trick_codes.specs.Named.{indexed, named};
ghost use Rattle.trick_model.specs.FaultList.{kept};

use crate::fault_kind::fault_kind;
use crate::job_texts::{job_texts, slices};
use std::alloc::Global;
use trick_base::TIC_LIMIT;
use trick_codes::{LineStop, Miss, feed, number, number_line, one_of, set_indexed, title};
use trick_lang::{FaultKind, JobFault, JobId};
use trick_model::{Faults, KEPT_FAULTS, Plan};

fn kind_of_word(place: usize) -> FaultKind
    ensures { result ≡ kind_word_at place }
{
    match place {
        0 => FaultKind::DivideByZero,
        _ => FaultKind::IndexOutOfRange,
    }
}

// A kind and the space after it.
fn kind(rest: &[u8]) -> Result<(FaultKind, &[u8]), Miss>
    ensures { Reads beside result (read kind_code rest.now) }
{
    let (place, rest) = one_of(&[b"DivideByZero ", b"IndexOutOfRange "], rest)?;
    Ok((kind_of_word(place), rest))
}

// One of these jobs.
fn job<'a>(words: &[&[u8]], rest: &'a [u8]) -> Result<(JobId, &'a [u8]), Miss>
    requires { length words.now ≤ 512 }
    ensures { Reads beside result (read (job_code (bytes_of words.now)) rest.now) }
{
    let (place, rest) = one_of(words, rest)?;
    Ok((JobId(place as u32), rest))
}

// A line and its `;`.
fn line(rest: &[u8]) -> Result<(u32, &[u8]), Miss>
    ensures { Reads beside result (read (number_code 0 4294967295 59) rest.now) }
{
    let (line, rest) = number(0, 4_294_967_295, b';', rest)?;
    Ok((line as u32, rest))
}

// A fault and its `;`, where these are the jobs.
fn fault<'a>(words: &[&[u8]], rest: &'a [u8]) -> Result<(JobFault, &'a [u8]), Miss>
    requires { length words.now ≤ 512 }
    ensures { Reads beside result (read (fault_code (bytes_of words.now)) rest.now) }
{
    let (tic, rest) = number(0, TIC_LIMIT + 1, b' ', rest)?;
    let (job, rest) = job(words, rest)?;
    let (kind, rest) = kind(rest)?;
    let (line, rest) = line(rest)?;
    let fault = JobFault {
        tic,
        job,
        kind,
        line,
    };
    Ok((fault, rest))
}

fn fault_bytes<'a>(
    name: &[u8],
    words: &[&[u8]],
    rest: &'a [u8],
) -> Result<(JobFault, &'a [u8]), Miss>
    requires { length words.now ≤ 512 }
    ensures { Reads beside result (read (fed (named name.now (fault_code (bytes_of words.now)))) rest.now) }
{
    let rest = title(name, rest)?;
    let (fault, rest) = fault(words, rest)?;
    let rest = feed(rest)?;
    Ok((fault, rest))
}

// Reads the line of a fault, by its index; the name is written in place of `name`.
#[tactic(auto, unfolding(trick_chkpt_lines::specs::Faults::fault_line))]
fn read_fault<'a>(
    name: &mut Vec<u8>,
    words: &[&[u8]],
    index: usize,
    rest: &'a [u8],
) -> Result<(JobFault, &'a [u8]), LineStop<'a>>
    requires { length words.now ≤ 512 }
    ensures { Gives beside result (read_lines (fault_line (bytes_of words.now) index) rest.now) }
{
    set_indexed(name, b"fault", index)?;
    match fault_bytes(name, words, rest) {
        Ok((fault, after)) => Ok((fault, after)),
        Err(Miss::Ends) => Err(LineStop::Cut),
        Err(Miss::Differs) => Err(LineStop::Wrong(fault_kind(words, name, rest), rest)),
    }
}

// Reads the lines of so many faults, all of which are kept.
#[tactic(auto, using(trick_codes::proofs::Each::left))]
fn read_fault_lines<'a>(
    alloc: Global,
    words: &[&[u8]],
    keep: usize,
    rest: &'a [u8],
) -> Result<(Faults, &'a [u8]), LineStop<'a>>
    requires words { length words.now ≤ 512 }
    requires kept { keep ≤ kept }
    ensures told { Gives (λ x. (x.0.first, x.1.now)) result
        (read_lines (numbered no_fault (fault_line (bytes_of words.now)) 0 keep) rest.now) }
    ensures count { IfOk result (λ x. x.0.count ≡ keep) }
{
    let mut faults = Faults::new(alloc)?;
    let mut name = Vec::new(alloc);
    let mut here = rest;
    for index in 0..keep {
        let (fault, after) = read_fault(&mut name, words, index, here)?;
        faults.add(fault);
        here = after;
    }
    Ok((faults, here))
}

// The faults, of which there are so many in all.
#[tactic(auto, using(crate::proofs::Counting::counted, crate::proofs::Counting::counted_more))]
fn count_all(mut faults: Faults, count: u64) -> Faults
    requires { faults.count ≡ min count kept }
    ensures { result ≡ record { count = count; first = faults.first } }
{
    if count > KEPT_FAULTS as u64 {
        faults.count_more(count - KEPT_FAULTS as u64);
    }
    faults
}

// Reads the lines of so many faults, of which 1,000 are kept.
#[tactic(auto, unfolding(trick_chkpt_lines::specs::Faults::faults_of))]
fn read_kept<'a>(
    alloc: Global,
    words: &[&[u8]],
    count: u64,
    rest: &'a [u8],
) -> Result<(Faults, &'a [u8]), LineStop<'a>>
    requires { length words.now ≤ 512 }
    ensures told { Gives (λ x. (x.0.first, x.1.now)) result
        (read_lines (faults_of (bytes_of words.now) count) rest.now) }
    ensures count { IfOk result (λ x. x.0.count ≡ min count kept) }
{
    read_fault_lines(alloc, words, count.min(KEPT_FAULTS as u64) as usize, rest)
}

fn most(words: &[&[u8]]) -> u64
    ensures { result ≡ most_faults (bytes_of words.now) }
{
    match words {
        [] => 0,
        [_, ..] => u64::MAX,
    }
}

// Reads the count of the faults and their lines, where these are the jobs.
#[tactic(auto, unfolding(trick_chkpt_lines::specs::Faults::faults_lines))]
fn read_faults_of<'a>(
    alloc: Global,
    words: &[&[u8]],
    rest: &'a [u8],
) -> Result<(Faults, &'a [u8]), LineStop<'a>>
    requires { length words.now ≤ 512 }
    ensures { Gives beside result (read_lines (faults_lines (bytes_of words.now)) rest.now) }
{
    let (count, rest) = number_line(b"faults", 0, most(words), rest)?;
    let (faults, rest) = read_kept(alloc, words, count, rest)?;
    Ok((count_all(faults, count), rest))
}

/// Reads the count of the faults, and the lines of those that are kept.
pub(crate) fn read_faults<'a>(
    alloc: Global,
    plan: &Plan,
    rest: &'a [u8],
) -> Result<(Faults, &'a [u8]), LineStop<'a>>
    ensures { Gives beside result (read_lines (faults_lines (job_texts_of plan.now)) rest.now) }
{
    let texts = job_texts(alloc, plan)?;
    let words = slices(alloc, &texts)?;
    read_faults_of(alloc, &words, rest)
}
