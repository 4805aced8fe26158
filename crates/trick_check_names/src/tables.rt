use crate::names::Names;
use trick_base::Items;
use trick_lang::Scalar;

/// What one element of a variable is: a number, or a struct or class by its number.
#[derive(Clone, Copy)]
pub enum Base {
    Single(Scalar),
    Group(usize),
}

/// The lengths of the indexes that a place still wants.
#[derive(Clone, Copy)]
pub enum Lengths {
    Plain,
    One(u64),
    Two(u64, u64),
}

/// What a place reaches: an array with elements, or one element.
#[derive(Clone, Copy)]
pub struct Shape {
    pub lengths: Lengths,
    pub base: Base,
}

/// What a name in a struct or a class stands for: a variable, or a method by the number of its part
/// in the class, from 0.
#[derive(Clone, Copy)]
pub enum Member {
    Variable(Shape),
    Method(usize),
}

/// What a name of the file stands for: a type, an item of an enum with its value, or an object with
/// its class. A struct and a class have the number of their definition in the file, from 0.
#[derive(Clone, Copy)]
pub enum Global {
    Enum,
    Struct(usize),
    Class(usize),
    Item(i32),
    Object(Base),
}

/// A local variable, which may be that of a loop.
#[derive(Clone, Copy)]
pub struct Local {
    pub scalar: Scalar,
    pub is_loop: bool,
}

/// What was read of a class: the names in it so far, and whether there was a constructor.
#[derive(Drop)]
pub struct Inside {
    pub members: Names<Member>,
    pub constructed: bool,
}

/// What a file declares: its names, and the members of each definition by its number. Only structs
/// and classes have members.
#[derive(Drop)]
pub struct Tables {
    pub names: Names<Global>,
    pub groups: Items<Names<Member>>,
}
