//! What the names of a simulation definition stand for, and the mistakes in them: what a file declares, and of each name
//! in it whether it is given once and whether there is such a thing; and where the variables lie that the names lead to:
//! the cells of structs, classes and objects, with the places of their members and the strides of their arrays.
#![tactic(auto)]

mod body;
mod calls;
mod class;
mod fault;
mod file;
mod follow;
mod found;
pub mod laws;
mod layout;
mod members;
mod names;
mod scope;
mod tables;

pub use calls::calls_of_class;
pub use fault::NameFault;
pub use file::check;
pub use layout::{Dim, Dims, Extent, Field, Layout, Site};
pub use names::Names;
pub use tables::{Base, Global, Lengths, Member, Shape, Tables};
