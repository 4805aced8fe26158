ghost use Rattle.std.specs.Prelude.{◌≡◌, IfErr, IfOk, IsTrue, length};
ghost use Rattle.trick_check_bodies.specs.Classes.{AreWhole, made};
ghost use Rattle.trick_check.specs.Draft.{IsDraft, IsWhole};
ghost use Rattle.trick_check.specs.Named.{IsNamed};
ghost use Rattle.trick_check.specs.Parts.{AreOrders};
ghost use Rattle.trick_check.specs.Refused.{IsRefused, JobsAreRight, NamesAreRight};
ghost use Rattle.trick_check.specs.Walk.{all_made, jobs_named, objects_of, sizes_of};
ghost use Rattle.trick_lang.specs.SDefineOf.{sdefine_of};
ghost use Rattle.trick_lang.specs.Syntax.{definitions_of};
ghost use Rattle.trick_lang.specs.Valid.{are_short};
ghost use Rattle.trick_check_names.specs.Tables.{tables_of};

use crate::CheckFault;
use crate::count::{Counted, count};
use crate::draft::{ProgramDraft, join};
use crate::name::check_names;
use crate::order::orders;
use crate::step::check_steps;
use crate::walk::make_classes;
use std::alloc::{AllocError, Global as Memory};
use trick_base::Items;
use trick_check_bodies::{Bodies, jobs};
use trick_check_cells::{cells, items, laws as cell_laws, lay_out};
use trick_check_names::Tables;
use trick_lang::syntax::{Definition, SDefine};
use trick_lang::{Job, Object, Program};

// What is made of the classes.
fn make_bodies(
    alloc: Memory,
    definitions: &[Definition],
    tables: &Tables,
    orders: &[Items<usize>],
    counted: &Counted,
) -> Result<Bodies, AllocError>
    requires tables { tables.now ≡ tables_of (definitions_of definitions.now) }
    requires many { length orders.now ≡ length definitions.now }
    requires ordered { AreOrders (definitions_of definitions.now) orders.now }
    requires sizes { counted.now.sizes.items ≡ sizes_of (definitions_of definitions.now) }
    requires objects { counted.now.objects ≡ objects_of (definitions_of definitions.now) }
    requires right { JobsAreRight (definitions_of definitions.now) }
    ensures made { IfOk result (λ bodies. made bodies ≡ all_made (definitions_of definitions.now)) }
    ensures whole { IfOk result (λ bodies. AreWhole (made bodies)) }
{
    cell_laws::declared_law();
    cell_laws::unfold_law();
    cell_laws::count_law();
    cell_laws::layout_law();
    let layout = lay_out(alloc, &counted.sizes, tables)?;
    make_classes(
        alloc,
        definitions,
        orders,
        counted.objects.as_slice(),
        layout,
    )
}

// The jobs, each with few enough steps, where this is made of the classes.
fn make_jobs(
    alloc: Memory,
    definitions: &[Definition],
    bodies: &Bodies,
    objects: &[Object],
) -> Result<Items<Job>, CheckFault>
    requires objects { objects.now ≡ objects_of (definitions_of definitions.now) }
    requires made { made bodies.now ≡ all_made (definitions_of definitions.now) }
    requires right { JobsAreRight (definitions_of definitions.now) }
    ensures jobs { IfOk result (λ jobs. jobs ≡ jobs_named (definitions_of definitions.now)) }
    ensures short { IfOk result (λ jobs. IsTrue (are_short bodies.now.blocks.items bodies.now.methods jobs)) }
    ensures refused { IfErr result (λ fault. IsRefused (definitions_of definitions.now) fault) }
{
    let jobs = jobs(alloc, definitions, bodies.numbers.as_slice(), objects)?;
    match check_steps(alloc, bodies, objects, jobs.as_slice()) {
        Ok(()) => Ok(jobs),
        Err(fault) => Err(fault),
    }
}

// All parts of the program.
fn make(
    alloc: Memory,
    definitions: &[Definition],
    tables: &Tables,
    orders: &[Items<usize>],
    counted: Counted,
) -> Result<ProgramDraft, CheckFault>
    requires tables { tables.now ≡ tables_of (definitions_of definitions.now) }
    requires many { length orders.now ≡ length definitions.now }
    requires ordered { AreOrders (definitions_of definitions.now) orders.now }
    requires sizes { counted.sizes.items ≡ sizes_of (definitions_of definitions.now) }
    requires objects { counted.objects ≡ objects_of (definitions_of definitions.now) }
    requires right { JobsAreRight (definitions_of definitions.now) }
    ensures draft { IfOk result (λ draft. IsDraft (definitions_of definitions.now) draft) }
    ensures whole { IfOk result (λ draft. IsWhole draft) }
    ensures refused { IfErr result (λ fault. IsRefused (definitions_of definitions.now) fault) }
{
    cell_laws::declared_law();
    cell_laws::unfold_law();
    cell_laws::count_law();
    let cells = cells(alloc, &counted.sizes, tables)?;
    let items = items(alloc, &tables.names)?;
    let bodies = make_bodies(alloc, definitions, tables, orders, &counted)?;
    let jobs = make_jobs(alloc, definitions, &bodies, counted.objects.as_slice())?;
    Ok(ProgramDraft {
        cells,
        items,
        objects: counted.objects,
        bodies,
        jobs,
    })
}

// All parts of the program of a file whose names are right.
fn draft_of(
    alloc: Memory,
    definitions: &[Definition],
    tables: &Tables,
) -> Result<ProgramDraft, CheckFault>
    requires tables { tables.now ≡ tables_of (definitions_of definitions.now) }
    requires right { NamesAreRight (definitions_of definitions.now) }
    ensures draft { IfOk result (λ draft. IsDraft (definitions_of definitions.now) draft) }
    ensures whole { IfOk result (λ draft. IsWhole draft) }
    ensures refused { IfErr result (λ fault. IsRefused (definitions_of definitions.now) fault) }
{
    let orders = orders(alloc, definitions, tables)?;
    let counted = count(alloc, definitions, tables)?;
    make(alloc, definitions, tables, orders.as_slice(), counted)
}

// The program of a file whose names are right.
fn resolve_named(alloc: Memory, sdef: &SDefine, tables: &Tables) -> Result<Program, CheckFault>
    requires tables { tables.now ≡ tables_of (sdefine_of sdef.now) }
    requires right { NamesAreRight (sdefine_of sdef.now) }
    ensures named { IfOk result (λ program. IsNamed (sdefine_of sdef.now) program) }
    ensures refused { IfErr result (λ fault. IsRefused (sdefine_of sdef.now) fault) }
{
    match draft_of(alloc, sdef.definitions.as_slice(), tables) {
        Ok(draft) => Ok(join(draft)),
        Err(fault) => Err(fault),
    }
}

/// The program that a file names, or the first refusal of the first kind that the file has
/// (docs/FORMATS.md, 4.4 and 5.3). It takes time and memory as the text and the cells that there are.
pub fn resolve(alloc: Memory, sdef: &SDefine) -> Result<Program, CheckFault>
    ensures named { IfOk result (λ program. IsNamed (sdefine_of sdef.now) program) }
    ensures refused { IfErr result (λ fault. IsRefused (sdefine_of sdef.now) fault) }
{
    let tables = check_names(alloc, sdef)?;
    resolve_named(alloc, sdef, &tables)
}
