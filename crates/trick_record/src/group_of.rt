//! A group by its number.

ghost use Rattle.std.specs.Prelude.{◌≡◌, ◌<◌, length};
ghost use Rattle.trick_record.specs.Added.{group_at};

use trick_model::{Group, Plan};

/// The group of a number; no cycle of a plan is 0.
pub(crate) fn group_of(plan: &Plan, group: u32) -> &Group
    requires { group < length plan.now.groups }
    ensures group { result.now ≡ group_at plan.now.groups group }
    ensures cycle { 0 < result.now.cycle }
{
    &plan.groups.as_slice()[group as usize]
}
