//! Reading the lines of groups.

ghost use Rattle.std.specs.List.{enumerate_from, zip};
ghost use Rattle.std.specs.Prelude.{◌≡◌, IfOk, None, false, length};
ghost use Rattle.trick_chkpt_lines.specs.CheckpointLines.{group_of, groups_of, last_line, last_of};
ghost use Rattle.trick_codes.specs.Code.{read};
ghost use Rattle.trick_codes.specs.Gives.{beside, Gives, Reads};
ghost use Rattle.trick_codes.specs.Lines.{each, fed, line, read_lines};
ghost use Rattle.trick_codes.specs.Forms.{kind_of as kind_of_line};
ghost use Rattle.trick_codes.specs.Named.{named, none_or, row as row_code, row_where};

use crate::cells::read_flag;
use crate::ranges::ranges_at;
use std::alloc::Global;
use trick_base::Items;
use trick_codes::{LineStop, Miss, Range, feed, kind_of, row_or_none, set_indexed, title};
use trick_model::{Flags, Group, Plan};

// The last row of one group, where there is one.
type LastRow = Option<Items<i64>>;

fn last_bytes<'a>(
    name: &[u8],
    ranges: &[Range],
    into: &mut [i64],
    rest: &'a [u8],
) -> Result<(bool, &'a [u8]), Miss>
    requires { length into.old ≡ length ranges.now }
    ensures { Reads (λ x. (row_where x.0 into.new, x.1.now)) result
        (read (fed (named name.now (none_or (row_code ranges.now)))) rest.now) }
{
    let rest = title(name, rest)?;
    let (found, rest) = row_or_none(ranges, into, rest)?;
    let rest = feed(rest)?;
    Ok((found, rest))
}

// Reads the line of a last row of this name, of numbers of these ranges.
fn read_last_row<'a>(
    alloc: Global,
    name: &[u8],
    ranges: &[Range],
    rest: &'a [u8],
) -> Result<(LastRow, &'a [u8]), LineStop<'a>>
    ensures { Gives beside result (read_lines (line (kind_of_line name.now (length ranges.now))
        (named name.now (none_or (row_code ranges.now)))) rest.now) }
{
    let mut row = vec![in alloc; 0; ranges.len()]?;
    match last_bytes(name, ranges, &mut row, rest) {
        Ok((true, after)) => Ok((Some(Items::from_vec(row)), after)),
        Ok((false, after)) => Ok((None, after)),
        Err(Miss::Ends) => Err(LineStop::Cut),
        Err(Miss::Differs) => Err(LineStop::Wrong(kind_of(name, ranges.len(), rest), rest)),
    }
}

// Reads the line of the last row of a group.
fn read_last_line<'a>(
    alloc: Global,
    plan: &Plan,
    index: usize,
    group: &Group,
    rest: &'a [u8],
) -> Result<(LastRow, &'a [u8]), LineStop<'a>>
    ensures { Gives beside result (read_lines (last_line plan.now index group.now) rest.now) }
{
    let mut name = Vec::new(alloc);
    set_indexed(&mut name, b"last", index)?;
    let ranges = ranges_at(alloc, plan, group.cells.as_slice())?;
    read_last_row(alloc, &name, &ranges, rest)
}

// Reads the last row of a group, where it records on change.
#[tactic(auto, unfolding(crate::specs::CheckpointLines::last_of))]
fn read_last<'a>(
    alloc: Global,
    plan: &Plan,
    index: usize,
    group: &Group,
    rest: &'a [u8],
) -> Result<(LastRow, &'a [u8]), LineStop<'a>>
    ensures { Gives beside result (read_lines (last_of plan.now index group.now) rest.now) }
{
    if group.changes {
        return read_last_line(alloc, plan, index, group, rest);
    }
    Ok((None, rest))
}

// Reads the flag of a group, and its last row.
#[tactic(auto, unfolding(crate::specs::CheckpointLines::group_of))]
fn read_group<'a>(
    alloc: Global,
    plan: &Plan,
    index: usize,
    group: &Group,
    rest: &'a [u8],
) -> Result<((bool, LastRow), &'a [u8]), LineStop<'a>>
    ensures { Gives beside result (read_lines (group_of plan.now (index, group.now)) rest.now) }
{
    let mut name = Vec::new(alloc);
    let (on, rest) = read_flag(&mut name, b"group", index, rest)?;
    let (last, rest) = read_last(alloc, plan, index, group, rest)?;
    Ok(((on, last), rest))
}

// Reads the lines of these groups.
fn read_groups_of<'a>(
    alloc: Global,
    plan: &Plan,
    groups: &[Group],
    rest: &'a [u8],
) -> Result<((Flags, Items<LastRow>), &'a [u8]), LineStop<'a>>
    ensures told { Gives (λ x. (zip (x.0.0).on x.0.1, x.1.now)) result
        (read_lines (each (false, None) (group_of plan.now) (enumerate_from 0 groups.now)) rest.now) }
    ensures sizes { IfOk result (λ x. length (x.0.0).on ≡ length x.0.1) }
{
    let mut on = Items::new(alloc);
    let mut rows = Items::new(alloc);
    let mut here = rest;
    for k in 0..groups.len() {
        let (found, after) = read_group(alloc, plan, k, &groups[k], here)?;
        let (flag, row) = found;
        on.push(flag)?;
        rows.push(row)?;
        here = after;
    }
    Ok(((Flags { on }, rows), here))
}

/// Reads a line for the flag of each group, followed by that of its last row.
#[tactic(auto, unfolding(crate::specs::CheckpointLines::groups_of))]
pub fn read_groups<'a>(
    alloc: Global,
    plan: &Plan,
    rest: &'a [u8],
) -> Result<((Flags, Items<LastRow>), &'a [u8]), LineStop<'a>>
    ensures told { Gives (λ x. (zip (x.0.0).on x.0.1, x.1.now)) result (read_lines (groups_of plan.now) rest.now) }
    ensures sizes { IfOk result (λ x. length (x.0.0).on ≡ length x.0.1) }
{
    read_groups_of(alloc, plan, plan.groups.as_slice(), rest)
}
