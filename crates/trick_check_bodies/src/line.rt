//! The job lines of classes.

ghost use Rattle.std.specs.Prelude.{◌≡◌, ◌≤◌, ◌-◌, ◌^◌, if◌then◌else◌, min};
ghost use Rattle.std.specs.Str.{bytes_eq};
ghost use Rattle.trick_check_bodies.specs.Jobs.{calls_in, class_lines, definition_lines, is_constructor, job_count, lines_at, part_lines};
ghost use Rattle.trick_lang.specs.Syntax.{class_part_of, class_parts_of, definition_of, definitions_of, jobs_of};

use trick_base::Word;
use trick_lang::Object;
use trick_lang::syntax::{ClassPart, Definition, JobLine};

fn is_constructor(part: &ClassPart) -> bool
    ensures { result ≡ is_constructor (class_part_of part.now) }
{
    match part {
        ClassPart::Constructor {
            line: _,
            name: _,
            jobs: _,
        } => true,
        ClassPart::Public => false,
        ClassPart::Members(_) => false,
        ClassPart::Method(_) => false,
    }
}

// The job lines of a constructor.
fn part_lines(part: &ClassPart) -> &[JobLine]
    ensures { jobs_of result.now ≡ part_lines (class_part_of part.now) }
{
    match part {
        ClassPart::Constructor {
            line: _,
            name: _,
            jobs,
        } => jobs.as_slice(),
        ClassPart::Public => &[],
        ClassPart::Members(_) => &[],
        ClassPart::Method(_) => &[],
    }
}

// The job lines of a class.
fn class_lines(parts: &[ClassPart]) -> &[JobLine]
    ensures { jobs_of result.now ≡ class_lines (class_parts_of parts.now) }
{
    for part in parts {
        if is_constructor(part) {
            return part_lines(part);
        }
    }
    &[]
}

fn definition_lines(definition: &Definition) -> &[JobLine]
    ensures { jobs_of result.now ≡ definition_lines (definition_of definition.now) }
{
    match definition {
        Definition::Class { name: _, parts } => class_lines(parts.as_slice()),
        Definition::Include => &[],
        Definition::Enum { name: _, items: _ } => &[],
        Definition::Struct {
            name: _,
            members: _,
        } => &[],
        Definition::Object {
            line: _,
            class: _,
            name: _,
        } => &[],
    }
}

/// The job lines of the class of that number.
pub fn lines_at(definitions: &[Definition], class: u32) -> &[JobLine]
    ensures { jobs_of result.now ≡ lines_at (definitions_of definitions.now) class }
{
    let place = class as usize;
    if place >= definitions.len() {
        return &[];
    }
    definition_lines(&definitions[place])
}

// 1 where the line calls the method.
fn calls(method: &Word, line: &JobLine) -> usize
    ensures is { result ≡ (if bytes_eq method.now line.now.method then 1 else 0) }
    ensures at_most { result ≤ 1 }
{
    if method.as_slice() == line.method.as_slice() {
        1
    } else {
        0
    }
}

/// How many of the lines call the method.
pub fn calls_in(method: &Word, lines: &[JobLine]) -> usize
    ensures { result ≡ calls_in method.now (jobs_of lines.now) }
{
    let mut count: usize = 0;
    for line in lines {
        count += calls(method, line);
    }
    count
}

/// How many jobs all objects have, at most 2^64 - 1.
pub fn job_count(definitions: &[Definition], objects: &[Object]) -> u64
    ensures { result ≡ min (job_count (definitions_of definitions.now) objects.now) (2 ^ 64 - 1) }
{
    let mut count: u64 = 0;
    for object in objects {
        let lines = lines_at(definitions, object.class);
        count = count.saturating_add(lines.len() as u64);
    }
    count
}
