//! The conditions of events: resolves their names, items of enums and full names of cells, and tells
//! which of them cannot fault.
#![tactic(auto)]

mod fault;
pub mod laws;
mod place;
mod plain;
mod term;

pub use fault::ConditionFault;
pub use plain::is_plain;
pub use term::resolve;
