//! Samples: the numbers of a session's variables at a turn's end.

ghost use Rattle.std.specs.Prelude.{◌≡◌, ◌++◌, ◌<◌, ◌≤◌, IfOk, IfSome, OnOk, codes, length, option_map};
ghost use Rattle.trick_model.specs.Session.{is_sampled, sample, sample_fields, shown};
ghost use Rattle.trick_model.specs.State.{seen};
ghost use Rattle.trick_session.specs.Answers.{sample_since};
ghost use Rattle.trick_session.specs.Kept.{AreThere, IsSession};

use itoa::Buffer;
use std::alloc::{AllocError, Global};
use trick_base::Word;
use trick_lang::{Cell, Cells};
use trick_model::{Session, State};

// Whether a sample is due at the end of a turn in which the tic went from one number to another.
fn is_due(session: &Session, from: u64, to: u64) -> bool
    requires { 1 ≤ session.now.cycle }
    ensures { result ≡ is_sampled from to session.now }
{
    let passed = from / session.cycle < to / session.cycle;
    let regular = !session.paused && !session.leaving && passed;
    (session.send || regular) && !session.variables.is_empty()
}

// The number of a variable, after a tab.
fn push_field<M: Cells>(
    line: &mut Vec<u8>,
    memory: &M,
    cell: Option<Cell>,
) -> Result<(), AllocError>
    requires { IfSome cell (λ cell. cell.0 < length (M.numbers memory.now)) }
    ensures { OnOk result (line.new.items ≡ line.old.items ++ codes "\t" ++ shown (M.numbers memory.now) cell) }
{
    line.push(b'\t')?;
    match cell {
        Some(cell) => line.extend_from_slice(Buffer::new().format(memory.get(cell)).as_bytes()),
        None => line.extend_from_slice(b"BAD_REF"),
    }
}

/// Bytes that a sample line keeps room for, for each variable. A longer number grows the line.
const FIELD: usize = 8;

// The sample line of variables.
fn line_of<M: Cells>(
    alloc: Global,
    memory: &M,
    variables: &[(Word, Option<Cell>)],
) -> Result<Vec<u8>, AllocError>
    requires { AreThere (length (M.numbers memory.now)) variables.now }
    ensures { IfOk result (λ line. line.items ≡ codes "0" ++ sample_fields (M.numbers memory.now) variables.now) }
{
    let room = variables.len().saturating_mul(FIELD).saturating_add(2);
    let mut line = Vec::with_capacity(alloc, room)?;
    line.push(b'0')?;
    for variable in variables {
        push_field(&mut line, memory, variable.1)?;
    }
    line.push(b'\n')?;
    Ok(line)
}

/// The sample line of a session at the end of a turn, at whose start the tic was `from`; none exactly
/// where none is due, or the list of variables is empty. The page RULES of the documents says when one
/// is due. It takes time and memory as there are variables.
pub fn sample<M: Cells>(
    alloc: Global,
    session: &Session,
    state: &State<M>,
    from: u64,
) -> Result<Option<Vec<u8>>, AllocError>
    requires { IsSession (length (M.numbers state.now.memory)) session.now }
    ensures { IfOk result (λ line. option_map (λ l. l.items) line
        ≡ sample_since from (seen M.numbers state.now) session.now) }
{
    if !is_due(session, from, state.tic) {
        return Ok(None);
    }
    let line = line_of(alloc, &state.memory, session.variables.as_slice())?;
    Ok(Some(line))
}
