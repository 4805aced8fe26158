ghost use Rattle.std.specs.Prelude.{◌≡◌};
ghost use Rattle.trick_check_names.specs.Laid.{fields_at};
ghost use Rattle.trick_check_names.specs.Names.{meaning_of};

use crate::{Base, Names};
use trick_base::{Items, Word};

/// An index of an array.
#[derive(Clone, Copy)]
pub struct Dim {
    /// How many elements there are.
    pub length: u32,
    /// How many cells an element has.
    pub stride: u32,
    /// How many cells all elements have.
    pub cells: u32,
}

/// The indexes that a place still wants.
#[derive(Clone, Copy)]
pub enum Dims {
    Plain,
    One(Dim),
    Two(Dim, Dim),
}

/// What a place reaches: an array with elements, or one element.
#[derive(Clone, Copy)]
pub struct Extent {
    pub dims: Dims,
    pub base: Base,
}

/// A variable of a struct or class.
#[derive(Clone, Copy)]
pub struct Field {
    /// How many cells of the struct or class are before it.
    pub offset: u32,
    pub extent: Extent,
}

/// What a name of the file stands for in bodies.
#[derive(Clone, Copy)]
pub enum Site {
    /// An item of an enum, with its value.
    Item(i32),
    /// An object, with its first cell and the number of its class.
    Object { first: u32, class: usize },
}

/// Where all variables of a file lie.
#[derive(Drop)]
pub struct Layout {
    /// The variables of each struct and class, by the number of its definition in the file.
    pub groups: Items<Names<Field>>,
    /// How many cells each struct and class has, by the same number.
    pub sizes: Items<u32>,
    /// The items and the objects of the file.
    pub sites: Names<Site>,
    /// How many cells all objects have, at most 65,536.
    pub cells: u32,
}

impl Layout {
    /// What a name is in a struct or class. Takes no memory.
    pub fn field(&self, group: usize, name: &Word) -> Option<Field>
        ensures { result ≡ meaning_of name.now (fields_at self.now.groups group) }
    {
        let groups = self.groups.as_slice();
        if group >= groups.len() {
            return None;
        }
        groups[group].meaning(name)
    }

    /// What a name of the file stands for in bodies. Takes no memory.
    pub fn site(&self, name: &Word) -> Option<Site>
        ensures { result ≡ meaning_of name.now self.now.sites }
    {
        self.sites.meaning(name)
    }
}
