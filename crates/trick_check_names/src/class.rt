//! Parts of classes: what they declare and what they do, with the mistakes in it.

ghost use Rattle.std.specs.Prelude.{◌≡◌, ◌+◌, [], length, IfOk, OnOk};
ghost use Rattle.trick_lang.specs.Syntax.{class_part_of, class_parts_of, jobs_of, statements_of_list};
ghost use Rattle.trick_check_names.specs.BodyMistakes.{all_mistakes};
ghost use Rattle.trick_check_names.specs.FileMistakes.{class_mistakes, declared_mistakes, done_mistakes, job_mistakes};
ghost use Rattle.trick_check_names.specs.Mistakes.{noted};
ghost use Rattle.trick_check_names.specs.Tables.{behind_part, behind_parts, nothing_inside};

use crate::body::{look_all, look_call};
use crate::found::{Found, declare};
use crate::members::add_members;
use crate::scope::FileScope;
use crate::tables::Inside;
use crate::{Global, Member, Names};
use std::alloc::{AllocError, Global as Memory};
use trick_base::Word;
use trick_lang::syntax::{ClassPart, JobLine, Stmt};

fn nothing(alloc: Memory) -> Inside
    ensures { result ≡ nothing_inside }
{
    Inside {
        members: Names::new(alloc),
        constructed: false,
    }
}

// Adds what a part declares, where these names of the file are known.
fn add_part(
    part: &ClassPart,
    number: usize,
    names: &Names<Global>,
    inside: &mut Inside,
    found: &mut Found,
) -> Result<(), AllocError>
    ensures inside { OnOk result (inside.new ≡ behind_part (class_part_of part.now) number names.now inside.old) }
    ensures found { OnOk result (found.new ≡ noted
        (declared_mistakes (class_part_of part.now) names.now inside.old) found.old) }
{
    match part {
        ClassPart::Public => {}
        ClassPart::Members(written) => add_members(written, names, &mut inside.members, found)?,
        ClassPart::Method(method) => {
            declare(
                &method.name,
                Member::Method(number),
                &mut inside.members,
                found,
            )?
        }
        ClassPart::Constructor {
            line: _,
            name,
            jobs: _,
        } => {
            if inside.constructed {
                found.note_twice(name)?;
            }
            inside.constructed = true;
        }
    }
    Ok(())
}

/// What the parts of a class declare, where these names of the file are known.
pub fn read_class(
    alloc: Memory,
    parts: &[ClassPart],
    names: &Names<Global>,
) -> Result<Names<Member>, AllocError>
    ensures { IfOk result (λ members. members ≡
        (behind_parts (class_parts_of parts.now) 0 names.now nothing_inside).members) }
{
    let mut unheeded = Found::nothing();
    let mut inside = nothing(alloc);
    for number in 0..parts.len() {
        add_part(&parts[number], number, names, &mut inside, &mut unheeded)?;
    }
    Ok(inside.members)
}

fn look_jobs(jobs: &[JobLine], scope: &FileScope, found: &mut Found)
    ensures { found.new ≡ noted (job_mistakes (jobs_of jobs.now) scope.now) found.old }
{
    for job in jobs {
        look_call(job.line, &job.method, scope, found);
    }
}

// Notes the mistakes in the body of a method.
fn look_body(
    alloc: Memory,
    body: &[Stmt],
    scope: &FileScope,
    found: &mut Found,
) -> Result<(), AllocError>
    ensures { OnOk result (found.new ≡ noted (all_mistakes (statements_of_list body.now) scope.now []) found.old) }
{
    let mut locals = Names::new(alloc);
    look_all(body, scope, &mut locals, found)
}

// Notes the mistakes in what a part of the class of that name does.
fn look_part(
    alloc: Memory,
    part: &ClassPart,
    class: &Word,
    scope: &FileScope,
    found: &mut Found,
) -> Result<(), AllocError>
    ensures { OnOk result (found.new ≡ noted (done_mistakes (class_part_of part.now) class.now scope.now) found.old) }
{
    match part {
        ClassPart::Public => Ok(()),
        ClassPart::Members(_) => Ok(()),
        ClassPart::Method(method) => look_body(alloc, method.body.as_slice(), scope, found),
        ClassPart::Constructor { line, name, jobs } => {
            if !name.is(class.as_slice()) {
                found.note_unknown(*line);
            }
            look_jobs(jobs.as_slice(), scope, found);
            Ok(())
        }
    }
}

// Notes the mistakes in the parts of the class of that name, of which nothing was read.
fn look_parts(
    alloc: Memory,
    parts: &[ClassPart],
    class: &Word,
    scope: &FileScope,
    inside: &mut Inside,
    found: &mut Found,
) -> Result<(), AllocError>
    ensures { OnOk result (found.new ≡ noted
        (class_mistakes (class_parts_of parts.now) 0 class.now inside.old scope.now) found.old) }
{
    for number in 0..parts.len() {
        let part = &parts[number];
        add_part(part, number, &scope.names, inside, found)?;
        look_part(alloc, part, class, scope, found)?;
    }
    Ok(())
}

/// Notes the mistakes in the parts of the class of that name.
pub fn look_class(
    alloc: Memory,
    parts: &[ClassPart],
    class: &Word,
    scope: &FileScope,
    found: &mut Found,
) -> Result<(), AllocError>
    ensures { OnOk result (found.new ≡ noted
        (class_mistakes (class_parts_of parts.now) 0 class.now nothing_inside scope.now) found.old) }
{
    let mut inside = nothing(alloc);
    look_parts(alloc, parts, class, scope, &mut inside, found)
}
