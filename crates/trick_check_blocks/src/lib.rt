//! From the trees of the text to numbered blocks: names become cells, slots and numbers of blocks.
//! A walk takes any tree. One of which a check of names says nothing becomes what docs/RULES.md says
//! of it, and the only error is that there is no memory left.
#![tactic(auto)]

mod block;
pub mod laws;
mod local;
mod method;
mod path;
mod scope;
mod slots;
mod spot;
mod start;
mod statement;
mod term;

pub use method::resolve_class;
pub use scope::ClassScope;
pub use spot::{Element, Loose, Spot};
pub use start::{Local, Meaning};
pub use statement::resolve_all;
pub use term::{Reached, resolve_expression, resolve_path};
