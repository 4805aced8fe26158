//! The groups of a plan.

ghost use Rattle.std.specs.Prelude.{◌≡◌, IfOk, length, map};
ghost use Rattle.trick_plan_draft.specs.Kept.{AreAdded, names_of_groups};
ghost use Rattle.trick_plan_draft.specs.declared.group.GroupDraft.{GroupDraft};
ghost use Rattle.trick_plan_ending.specs.Added.{ArePlaces, added, at_places};
ghost use Rattle.trick_plan_ending.specs.Ending.{plan_group};

use crate::places::places;
use std::alloc::{AllocError, Global};
use std::mem;
use trick_base::Items;
use trick_check_names::Names;
use trick_model::{Flags, Group};
use trick_plan_draft::GroupDraft;

// The group of a plan that a draft gives.
fn plan_group(draft: GroupDraft) -> Group
    ensures { result ≡ plan_group draft }
{
    Group {
        name: draft.name,
        cycle: draft.cycle,
        changes: draft.changes,
        cells: draft.cells,
    }
}

// What is left where a draft is taken out.
fn no_draft(alloc: Global) -> GroupDraft {
    GroupDraft {
        name: Items::new(alloc),
        cycle: 1,
        changes: false,
        cells: Items::new(alloc),
        on: false,
    }
}

// Whether each of the groups at these places begins on.
fn flags_at(
    alloc: Global,
    drafts: &[GroupDraft],
    places: &[usize],
) -> Result<Items<bool>, AllocError>
    requires { ArePlaces (length drafts.now) places.now }
    ensures { IfOk result (λ on. on ≡ map (λ (group : GroupDraft). group.on) (at_places drafts.now places.now)) }
{
    let mut on = Items::new(alloc);
    for place in places {
        on.push(drafts[*place].on)?;
    }
    Ok(on)
}

// The groups at these places.
fn groups_at(
    alloc: Global,
    drafts: Items<GroupDraft>,
    places: &[usize],
) -> Result<Items<Group>, AllocError>
    requires { ArePlaces (length drafts) places.now }
    ensures { IfOk result (λ groups. groups ≡ map plan_group (at_places drafts places.now)) }
{
    let mut left = drafts.into_vec();
    let mut groups = Items::new(alloc);
    for place in places {
        let draft = mem::replace(&mut left[*place], no_draft(alloc));
        groups.push(plan_group(draft))?;
    }
    Ok(groups)
}

// The groups that are added, in the order of their adding, with their flags.
pub(crate) fn groups(
    alloc: Global,
    drafts: Items<GroupDraft>,
    names: &Names<usize>,
) -> Result<(Items<Group>, Flags), AllocError>
    requires { AreAdded 64 (names_of_groups drafts) names.now }
    ensures groups { IfOk result (λ found. found.0 ≡ map plan_group (added drafts names.now)) }
    ensures on { IfOk result (λ found.
        (found.1).on ≡ map (λ (group : GroupDraft). group.on) (added drafts names.now)) }
{
    let places = places(alloc, names)?;
    let on = flags_at(alloc, drafts.as_slice(), &places)?;
    let groups = groups_at(alloc, drafts, &places)?;
    Ok((groups, Flags { on }))
}
