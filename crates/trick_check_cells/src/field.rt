//! Where variables lie in their structs and classes, and objects in the memory.

ghost use Rattle.std.specs.Prelude.{◌≡◌, ◌+◌, [], IfOk, OnOk};
ghost use Rattle.trick_check_cells.specs.Counts.{global_count, member_count};
ghost use Rattle.trick_check_cells.specs.Tables.{dim, dims_of, fields_of, groups_from, has_elements, layout_of, narrow, taken, with_field, with_fields, with_site, with_sites};

use crate::size::{base_size, cell_count, global_size, member_size};
use std::alloc::{AllocError, Global as Memory};
use trick_base::{CELL_LIMIT, Items, Word};
use trick_check_names::{
    Base, Dim, Dims, Extent, Field, Global, Layout, Lengths, Member, Names, Site, Tables,
};

/// Stands still at 2^32 - 1.
pub fn narrow(number: u64) -> u32
    ensures { result ≡ narrow number }
{
    number.min(u64::from(u32::MAX)) as u32
}

// An index over elements of so many cells.
fn dimension(length: u64, stride: u32) -> Dim
    ensures { result ≡ dim length stride }
{
    let length = narrow(length);
    Dim {
        length,
        stride,
        cells: length.saturating_mul(stride),
    }
}

fn dimensions(lengths: Lengths, size: u32) -> Dims
    ensures { result ≡ dims_of lengths size }
{
    match lengths {
        Lengths::Plain => Dims::Plain,
        Lengths::One(n) => Dims::One(dimension(n, size)),
        Lengths::Two(m, n) => {
            let inner = dimension(n, size);
            Dims::Two(dimension(m, inner.cells), inner)
        }
    }
}

fn has_elements(lengths: Lengths) -> bool
    ensures { result ≡ has_elements lengths }
{
    match lengths {
        Lengths::Plain => true,
        Lengths::One(n) => 1 <= n,
        Lengths::Two(m, n) => 1 <= m && 1 <= n,
    }
}

// Adds a variable that has so many cells before it.
fn add_field(
    sizes: &[u64],
    offset: u32,
    name: &Word,
    member: Member,
    fields: &mut Names<Field>,
) -> Result<(), AllocError>
    ensures { OnOk result (fields.new ≡ with_field sizes.now offset name.now member fields.old) }
{
    let Member::Variable(shape) = member else {
        return Ok(());
    };
    if has_elements(shape.lengths) {
        let size = narrow(base_size(sizes, shape.base));
        let extent = Extent {
            dims: dimensions(shape.lengths, size),
            base: shape.base,
        };
        fields.add(name, Field { offset, extent })?;
    }
    Ok(())
}

// The variables of a struct or class.
fn fields(alloc: Memory, sizes: &[u64], members: &Names<Member>) -> Result<Names<Field>, AllocError>
    ensures { IfOk result (λ fields. fields ≡ with_fields sizes.now 0 members.now []) }
{
    let mut fields = Names::new(alloc);
    let mut offset: u32 = 0;
    for place in 0..members.len() {
        let (name, member) = members.entry(place);
        let name = Word::from_bytes(alloc, name)?;
        add_field(sizes, offset, &name, member, &mut fields)?;
        offset = narrow(u64::from(offset).saturating_add(member_size(sizes, member)));
    }
    Ok(fields)
}

// The variables of the struct or class of that number.
fn group(
    alloc: Memory,
    sizes: &[u64],
    number: usize,
    members: &Names<Member>,
) -> Result<Names<Field>, AllocError>
    ensures { IfOk result (λ fields. fields ≡ fields_of sizes.now number members.now) }
{
    if base_size(sizes, Base::Group(number)) <= CELL_LIMIT {
        fields(alloc, sizes, members)
    } else {
        Ok(Names::new(alloc))
    }
}

fn groups(
    alloc: Memory,
    sizes: &[u64],
    members: &[Names<Member>],
) -> Result<Items<Names<Field>>, AllocError>
    ensures { IfOk result (λ groups. groups ≡ groups_from sizes.now 0 members.now) }
{
    let mut groups = Items::new(alloc);
    for number in 0..members.len() {
        let fields = group(alloc, sizes, number, &members[number])?;
        groups.push(fields)?;
    }
    Ok(groups)
}

// What structs and classes take in the memory.
fn taken(alloc: Memory, sizes: &[u64]) -> Result<Items<u32>, AllocError>
    ensures { IfOk result (λ all. all ≡ taken sizes.now) }
{
    let mut all = Items::new(alloc);
    for size in sizes {
        all.push(if *size <= CELL_LIMIT { *size as u32 } else { 0 })?;
    }
    Ok(all)
}

// Adds an object that has so many cells before it, or an item.
fn add_site(
    first: u32,
    name: &Word,
    global: Global,
    sites: &mut Names<Site>,
) -> Result<(), AllocError>
    ensures { OnOk result (sites.new ≡ with_site first name.now global sites.old) }
{
    match global {
        Global::Item(value) => {
            sites.add(name, Site::Item(value))?;
        }
        Global::Object(Base::Group(class)) => {
            sites.add(name, Site::Object { first, class })?;
        }
        _ => {}
    }
    Ok(())
}

fn sites(alloc: Memory, sizes: &[u64], names: &Names<Global>) -> Result<Names<Site>, AllocError>
    ensures { IfOk result (λ sites. sites ≡ with_sites sizes.now 0 names.now []) }
{
    let mut sites = Names::new(alloc);
    let mut first: u32 = 0;
    for place in 0..names.len() {
        let (name, global) = names.entry(place);
        let name = Word::from_bytes(alloc, name)?;
        add_site(first, &name, global, &mut sites)?;
        first = narrow(u64::from(first).saturating_add(global_size(sizes, global)));
    }
    Ok(sites)
}

/// Where all variables of a file lie, where these are the counts of each struct and class.
pub fn lay_out(alloc: Memory, sizes: &[u64], tables: &Tables) -> Result<Layout, AllocError>
    ensures { IfOk result (λ layout. layout ≡ layout_of sizes.now tables.now) }
{
    Ok(Layout {
        groups: groups(alloc, sizes, tables.groups.as_slice())?,
        sizes: taken(alloc, sizes)?,
        sites: sites(alloc, sizes, &tables.names)?,
        cells: narrow(cell_count(sizes, &tables.names)),
    })
}
