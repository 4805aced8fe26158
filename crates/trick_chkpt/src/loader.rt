//! Loading.

ghost use Rattle.std.specs.Prelude.{◌≡◌, IfOk};
ghost use Rattle.trick_chkpt_lines.specs.CheckpointLines.{checkpoint, head_lines, mode_at, mode_line};
ghost use Rattle.trick_codes.specs.Gives.{beside, Gives};
ghost use Rattle.trick_codes.specs.Lines.{read_lines};
ghost use Rattle.trick_codes.specs.Loads.{Loads};
ghost use Rattle.trick_lang.specs.Effect.{scalars_of};
ghost use Rattle.trick_model.specs.State.{seen};

use crate::read_faults::read_faults;
use crate::read_records::read_records;
use std::alloc::Global;
use trick_base::TIC_LIMIT;
use trick_chkpt_lines::{read_events, read_groups, read_jobs, read_memory};
use trick_codes::{LineStop, LoadFault, end_line, number_line, whole, word_line};
use trick_lang::Cells;
use trick_model::{LAST_TURN, Mode, Plan, State};

// The first tic that no run reaches.
const LAST_TIC: u64 = TIC_LIMIT + 1;

fn mode_of_word(place: usize) -> Mode
    ensures { result ≡ mode_at place }
{
    match place {
        0 => Mode::Run,
        1 => Mode::Freeze,
        _ => Mode::Shutdown,
    }
}

#[tactic(auto, unfolding(trick_chkpt_lines::specs::CheckpointLines::mode_line))]
fn read_mode(rest: &[u8]) -> Result<(Mode, &[u8]), LineStop>
    ensures { Gives beside result (read_lines mode_line rest.now) }
{
    let (place, rest) = word_line(b"mode", &[b"Run;", b"Freeze;", b"Shutdown;"], rest)?;
    Ok((mode_of_word(place), rest))
}

// What the first lines say, after the version.
#[derive(Drop)]
struct Head {
    turn: u64,
    tic: u64,
    limit: u64,
    mode: Mode,
}

#[tactic(auto, unfolding(trick_chkpt_lines::specs::CheckpointLines::head_lines))]
fn read_head(rest: &[u8]) -> Result<(Head, &[u8]), LineStop>
    ensures { Gives (λ x. ((x.0.turn, (x.0.tic, (x.0.limit, x.0.mode))), x.1.now)) result
        (read_lines head_lines rest.now) }
{
    let (_, rest) = number_line(b"checkpoint", 1, 1, rest)?;
    let (turn, rest) = number_line(b"turn", 0, LAST_TURN, rest)?;
    let (tic, rest) = number_line(b"tic", 0, LAST_TIC, rest)?;
    let (limit, rest) = number_line(b"limit", 0, LAST_TIC, rest)?;
    let (mode, rest) = read_mode(rest)?;
    let head = Head {
        turn,
        tic,
        limit,
        mode,
    };
    Ok((head, rest))
}

// Reads a checkpoint from the front of a text.
#[tactic(auto, unfolding(trick_chkpt_lines::specs::CheckpointLines::checkpoint))]
fn read_state<'a, M: Cells + Drop>(
    alloc: Global,
    plan: &Plan,
    into: M,
    rest: &'a [u8],
) -> Result<(State<M>, &'a [u8]), LineStop<'a>>
    requires { M.scalars into ≡ scalars_of plan.now.program.cells }
    ensures told { Gives (λ x. (seen M.numbers x.0, x.1.now)) result (read_lines (checkpoint plan.now) rest.now) }
    ensures scalars { IfOk result (λ x. M.scalars x.0.memory ≡ scalars_of plan.now.program.cells) }
{
    let (head, rest) = read_head(rest)?;
    let (memory, rest) = read_memory(plan, into, rest)?;
    let (jobs, rest) = read_jobs(alloc, plan, rest)?;
    let (events, rest) = read_events(alloc, plan, rest)?;
    let ((groups, last), rest) = read_groups(alloc, plan, rest)?;
    let (taken, rest) = read_records(alloc, plan, rest)?;
    let (faults, rest) = read_faults(alloc, plan, rest)?;
    let rest = end_line(rest)?;
    let state = State {
        turn: head.turn,
        tic: head.tic,
        limit: head.limit,
        mode: head.mode,
        memory,
        jobs,
        events,
        groups,
        last,
        taken,
        faults,
    };
    Ok((state, rest))
}

/// The state of which the text is the checkpoint, or why it is none of a state of this plan.
/// docs/FORMATS.md has the form and the refusals. The memory is of the plan; its numbers are set as
/// they are read, and a refusal drops it. The cost is linear in the text and the plan.
pub fn load<M: Cells + Drop>(
    alloc: Global,
    plan: &Plan,
    text: &[u8],
    into: M,
) -> Result<State<M>, LoadFault>
    requires { M.scalars into ≡ scalars_of plan.now.program.cells }
    ensures loaded { Loads (seen M.numbers) (checkpoint plan.now) text.now result }
    ensures scalars { IfOk result (λ state. M.scalars state.memory ≡ scalars_of plan.now.program.cells) }
{
    whole(text, read_state(alloc, plan, into, text))
}
