ghost use Rattle.std.specs.Prelude.{◌≡◌, ◌++◌, IfNone, IfOk, IfSome, true};
ghost use Rattle.trick_top_alone.specs.Verdict.{Accepted, Ended as EndedBy, Generated as GeneratedBy, is_made, line_of};
ghost use Rattle.trick_top_alone.specs.Verdict.{Served as ServedBy, ended_facts as ended_facts_of};
ghost use Rattle.trick_top_alone.specs.Verdict.{ended_status as ended_status_of, generated_line as generated_line_of};
ghost use Rattle.trick_top_alone.specs.Verdict.{status_of, verdict_of};

use std::alloc::{AllocError, Global};
use trick_base::Word;
use trick_exec_alone::Summary;
use trick_top_refusals::length_line;

const USAGE: &[u8] = b"usage: tricks serial|run|replay|check|list|gen\n";

const SHELF_FAULT: &[u8] = b"refused ShelfFault\n";

const OUT_OF_MEMORY: &[u8] = b"refused OutOfMemory\n";

/// How a command ends. Lines have their line feed.
#[derive(Debug, Drop)]
pub enum Verdict<'a> {
    /// The words ask for no command.
    Usage,
    /// There is no file of this name.
    NoFile(&'a Word),
    /// A text is refused, with this line.
    TextRefused(Vec<u8>),
    /// The plan is not accepted, with this line.
    PlanRefused(Vec<u8>),
    /// The plan is accepted: it has so many cells, jobs and threads.
    Accepted {
        cells: u64,
        jobs: u64,
        threads: u64,
    },
    /// The cells are listed by this line.
    Listed(Vec<u8>),
    /// The run came to its end, and so many sessions joined in it.
    Ended {
        ended: Summary,
        sessions: u64,
    },
    /// The run of a generated simulation of so many objects came to its end.
    Generated {
        objects: u32,
        ended: Summary,
        sessions: u64,
    },
    /// The run with clients came to its end, and so many sessions joined in it.
    Served {
        ended: Summary,
        sessions: u64,
        door_failed: bool,
    },
    /// The journal does not fit: it ends at one turn, and its run at another.
    JournalLength {
        kept: u64,
        given: u64,
    },
    /// The shelf failed.
    ShelfFault,
    /// There was no memory.
    OutOfMemory,
}

/// The pieces, one after the other.
fn joined(alloc: Global, first: &[u8], second: &[u8], third: &[u8]) -> Result<Vec<u8>, AllocError>
    ensures { IfOk result (λ line. line.items ≡ first.now ++ second.now ++ third.now) }
{
    let mut line = Vec::from_slice(alloc, first)?;
    line.extend_from_slice(second)?;
    line.extend_from_slice(third)?;
    Ok(line)
}

fn accepted_line(alloc: Global, cells: u64, jobs: u64, threads: u64) -> Result<Vec<u8>, AllocError>
    ensures { IfOk result (λ line. line.items ≡ line_of (Accepted cells jobs threads)) }
{
    let line = format!(in alloc; "accepted cells={cells} jobs={jobs} threads={threads}\n")?;
    Ok(line.into_bytes())
}

// What a run says, with this end of its line.
fn ended_facts(
    alloc: Global,
    ended: Summary,
    sessions: u64,
    end: &str,
) -> Result<Vec<u8>, AllocError>
    ensures { IfOk result (λ line. line.items ≡ ended_facts_of ended sessions ++ end.now) }
{
    let Summary {
        turns,
        tic,
        faults,
        ..
    } = ended;
    let line = format!(in alloc;
        "ended turns={turns} tic={tic} faults={faults} sessions={sessions}{end}"
    )?;
    Ok(line.into_bytes())
}

fn ended_line(alloc: Global, ended: Summary, sessions: u64) -> Result<Vec<u8>, AllocError>
    ensures { IfOk result (λ line. line.items ≡ line_of (EndedBy ended sessions)) }
{
    ended_facts(alloc, ended, sessions, "\n")
}

// What a run with clients says. That its door failed stands before the line feed.
fn served_line(
    alloc: Global,
    ended: Summary,
    sessions: u64,
    door_failed: bool,
) -> Result<Vec<u8>, AllocError>
    ensures { IfOk result (λ line. line.items ≡ line_of (ServedBy ended sessions door_failed)) }
{
    if door_failed {
        ended_facts(alloc, ended, sessions, " door=failed\n")
    } else {
        ended_line(alloc, ended, sessions)
    }
}

// What is said of a generated simulation before its run's line.
fn generated_line(alloc: Global, objects: u32, sum: i64) -> Result<Vec<u8>, AllocError>
    ensures { IfOk result (λ line. line.items ≡ generated_line_of objects sum) }
{
    let jobs = 3 * objects as u64;
    let line = format!(in alloc; "gen {objects} objects={objects} jobs={jobs} sum={sum}\n")?;
    Ok(line.into_bytes())
}

// The lines of a generated simulation and of its run.
fn generated_lines(
    alloc: Global,
    objects: u32,
    ended: Summary,
    sessions: u64,
) -> Result<Vec<u8>, AllocError>
    ensures { IfOk result (λ line. line.items ≡ line_of (GeneratedBy objects ended sessions)) }
{
    let mut lines = generated_line(alloc, objects, ended.sum)?;
    lines.extend_from_slice(&ended_line(alloc, ended, sessions)?)?;
    Ok(lines)
}

/// The status of a run that came to its end.
fn ended_status(faults: u64) -> u8
    ensures { result ≡ ended_status_of faults }
{
    match faults {
        0 => 0,
        _ => 4,
    }
}

impl Verdict<'_> {
    /// The status of the program.
    pub(crate) fn status(&self) -> u8
        ensures { result ≡ status_of (verdict_of self.now) }
    {
        match self {
            Verdict::Usage => 1,
            Verdict::NoFile(_) => 9,
            Verdict::TextRefused(_) => 2,
            Verdict::PlanRefused(_) => 3,
            Verdict::Accepted { .. } | Verdict::Listed(_) => 0,
            Verdict::Ended { ended, .. } => ended_status(ended.faults),
            Verdict::Generated { ended, .. } => ended_status(ended.faults),
            Verdict::Served { ended, .. } => ended_status(ended.faults),
            Verdict::JournalLength { .. } => 7,
            Verdict::ShelfFault => 5,
            Verdict::OutOfMemory => 6,
        }
    }

    /// The line to be printed, where it need not be made.
    pub(crate) fn held_line(&self) -> Option<&[u8]>
        ensures held { IfSome result (λ line. line.now ≡ line_of (verdict_of self.now)) }
        ensures made { IfNone result (is_made (verdict_of self.now) ≡ true) }
    {
        match self {
            Verdict::Usage => Some(USAGE),
            Verdict::NoFile(_) | Verdict::Accepted { .. } => None,
            Verdict::Ended { .. } | Verdict::Generated { .. } => None,
            Verdict::Served { .. } | Verdict::JournalLength { .. } => None,
            Verdict::TextRefused(line) => Some(line),
            Verdict::PlanRefused(line) => Some(line),
            Verdict::Listed(line) => Some(line),
            Verdict::ShelfFault => Some(SHELF_FAULT),
            Verdict::OutOfMemory => Some(OUT_OF_MEMORY),
        }
    }

    /// The line to be printed.
    pub(crate) fn line(&self, alloc: Global) -> Result<Vec<u8>, AllocError>
        ensures { IfOk result (λ line. line.items ≡ line_of (verdict_of self.now)) }
    {
        match self {
            Verdict::Usage => Vec::from_slice(alloc, USAGE),
            Verdict::NoFile(name) => joined(alloc, b"refused NoFile ", name.as_slice(), b"\n"),
            Verdict::TextRefused(line) => Vec::from_slice(alloc, line),
            Verdict::PlanRefused(line) => Vec::from_slice(alloc, line),
            Verdict::Accepted {
                cells,
                jobs,
                threads,
            } => accepted_line(alloc, *cells, *jobs, *threads),
            Verdict::Listed(line) => Vec::from_slice(alloc, line),
            Verdict::Ended { ended, sessions } => ended_line(alloc, *ended, *sessions),
            Verdict::Generated {
                objects,
                ended,
                sessions,
            } => generated_lines(alloc, *objects, *ended, *sessions),
            Verdict::Served {
                ended,
                sessions,
                door_failed,
            } => served_line(alloc, *ended, *sessions, *door_failed),
            Verdict::JournalLength { kept, given } => length_line(alloc, *kept, *given),
            Verdict::ShelfFault => Vec::from_slice(alloc, SHELF_FAULT),
            Verdict::OutOfMemory => Vec::from_slice(alloc, OUT_OF_MEMORY),
        }
    }
}
