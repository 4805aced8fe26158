//! How many cells there are, with sums that stand still at 2^64 - 1.

ghost use Rattle.std.specs.Prelude.{◌≡◌, [], IfOk};
ghost use Rattle.trick_base.specs.Capped.{capped};
ghost use Rattle.trick_check_cells.specs.Cells.{group_cells};
ghost use Rattle.trick_check_cells.specs.Counts.{base_count, counts, global_count, member_count, members_count, names_count, place_count};

use std::alloc::{AllocError, Global as Memory};
use trick_check_names::{Base, Global, Lengths, Member, Names};

/// How many cells an element has.
pub fn base_size(sizes: &[u64], base: Base) -> u64
    ensures { result ≡ base_count sizes.now base }
{
    match base {
        Base::Single(_) => 1,
        Base::Group(group) => { if group < sizes.len() { sizes[group] } else { 0 } }
    }
}

fn place_size(sizes: &[u64], lengths: Lengths, base: Base) -> u64
    ensures { result ≡ capped (place_count sizes.now lengths base) }
{
    let one = base_size(sizes, base);
    match lengths {
        Lengths::Plain => one,
        Lengths::One(n) => n.saturating_mul(one),
        Lengths::Two(m, n) => m.saturating_mul(n.saturating_mul(one)),
    }
}

/// How many cells a variable has; a method has none.
pub fn member_size(sizes: &[u64], member: Member) -> u64
    ensures { result ≡ capped (member_count sizes.now member) }
{
    match member {
        Member::Variable(shape) => place_size(sizes, shape.lengths, shape.base),
        Member::Method(_) => 0,
    }
}

fn members_size(sizes: &[u64], members: &Names<Member>) -> u64
    ensures { result ≡ capped (members_count sizes.now members.now) }
{
    let mut total: u64 = 0;
    for place in 0..members.len() {
        let (_, member) = members.entry(place);
        total = total.saturating_add(member_size(sizes, member));
    }
    total
}

/// How many cells each struct and class has, at most 2^64 - 1, by the number of its definition.
pub fn sizes(alloc: Memory, groups: &[Names<Member>]) -> Result<Vec<u64>, AllocError>
    ensures { IfOk result (λ sizes. sizes.items ≡ counts (group_cells groups.now [])) }
{
    let mut sizes = Vec::new(alloc);
    for group in groups {
        let size = members_size(&sizes, group);
        sizes.push(size)?;
    }
    Ok(sizes)
}

/// How many cells an object has; what is no object has none.
pub fn global_size(sizes: &[u64], global: Global) -> u64
    ensures { result ≡ global_count sizes.now global }
{
    match global {
        Global::Object(Base::Group(group)) => base_size(sizes, Base::Group(group)),
        _ => 0,
    }
}

/// How many cells all objects have, at most 2^64 - 1. Nothing of that size is made or walked.
pub fn cell_count(sizes: &[u64], names: &Names<Global>) -> u64
    ensures { result ≡ capped (names_count sizes.now names.now) }
{
    let mut total: u64 = 0;
    for place in 0..names.len() {
        let (_, global) = names.entry(place);
        total = total.saturating_add(global_size(sizes, global));
    }
    total
}
