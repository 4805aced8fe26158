ghost use Rattle.std.specs.Prelude.{IsTrue};
ghost use Rattle.trick_lang.specs.Facts.{give_no_trick, have_declarators, have_items, have_no_keyword, have_right_lengths, have_right_phases, have_right_threads, have_right_times, have_right_values, have_short_lists, have_short_loops, have_short_names, have_spelled_names};
ghost use Rattle.trick_lang.specs.Syntax.{definitions_of};

use crate::Class;
use crate::syntax::{Stmt, TypeName};
use trick_base::{Items, Word};

/// A method of a class: its name and the statements in its braces, without the `return` of an `int`
/// method.
#[derive(Drop)]
pub struct Method {
    pub name: Word,
    pub body: Items<Stmt>,
}

/// An item of an enum: the line of its name, its name, and its value where one is written.
#[derive(Drop)]
pub struct EnumItem {
    pub line: u32,
    pub name: Word,
    pub value: Option<i128>,
}

/// A member's name and the lengths of its array: none, one or two, each from 1 to 2^63.
#[derive(Drop)]
pub struct Declarator {
    pub name: Word,
    pub lengths: Items<u64>,
}

/// Members of one type, as `long a, b[3];`.
#[derive(Drop)]
pub struct Members {
    pub written: TypeName,
    pub declarators: Items<Declarator>,
}

/// A line of a constructor: a job of each object of the class. Times are in tics. Where none is
/// written, the thread is 0, the phase 60000, and of a scheduled job the start 0 and the stop 10^15.
/// A job of another class has 0 for its times. `line` is the line of the method's name.
#[derive(Drop)]
pub struct JobLine {
    pub class: Class,
    pub thread: u8,
    pub phase: u32,
    pub start: u64,
    pub cycle: u64,
    pub stop: u64,
    pub line: u32,
    pub method: Word,
}

/// A part of a class, in the order of the text.
#[derive(Drop)]
pub enum ClassPart {
    /// `public:`
    Public,
    Members(Members),
    Method(Method),
    /// The constructor, with the line of its name.
    Constructor {
        line: u32,
        name: Word,
        jobs: Items<JobLine>,
    },
}

/// A definition of an S_define.
#[derive(Drop)]
pub enum Definition {
    /// The one `#include` that there is.
    Include,
    Enum { name: Word, items: Items<EnumItem> },
    Struct { name: Word, members: Items<Members> },
    Class { name: Word, parts: Items<ClassPart> },
    /// An object, with the name of its class and the line of that.
    Object { line: u32, class: Word, name: Word },
}

/// What an S_define says: its definitions in order. Its ghost fields are facts that its reader knows; of
/// names, lists and numbers they speak outside the braces of methods.
#[derive(Drop)]
pub struct SDefine {
    pub definitions: Items<Definition>,
    // Names have at most 64 bytes, which are letters, digits and `_`, with no digit first.
    pub ghost short_names: { IsTrue (have_short_names (definitions_of definitions)) },
    pub ghost spelled_names: { IsTrue (have_spelled_names (definitions_of definitions)) },
    // No name is a keyword, and no type, member or object is named `trick`.
    pub ghost no_keyword: { IsTrue (have_no_keyword (definitions_of definitions)) },
    pub ghost no_trick: { IsTrue (give_no_trick (definitions_of definitions)) },
    // Lists have at most 4,096 items, an enum has an item, and a line of members a declarator.
    pub ghost short_lists: { IsTrue (have_short_lists (definitions_of definitions)) },
    pub ghost some_items: { IsTrue (have_items (definitions_of definitions)) },
    pub ghost some_declarators: { IsTrue (have_declarators (definitions_of definitions)) },
    // An array has one or two lengths, from 1 to 2^63, and a written value is at most 2^63 either way.
    pub ghost right_lengths: { IsTrue (have_right_lengths (definitions_of definitions)) },
    pub ghost right_values: { IsTrue (have_right_values (definitions_of definitions)) },
    // A scheduled job has a cycle from 1 and no time after the last tic; others have no times.
    pub ghost right_times: { IsTrue (have_right_times (definitions_of definitions)) },
    // Threads go from 0 to 15, and phases from 1 to 65534; where none is written a phase is 60000.
    pub ghost right_threads: { IsTrue (have_right_threads (definitions_of definitions)) },
    pub ghost right_phases: { IsTrue (have_right_phases (definitions_of definitions)) },
    // A loop in a method ends at 1,000,000 at most.
    pub ghost short_loops: { IsTrue (have_short_loops (definitions_of definitions)) },
}
