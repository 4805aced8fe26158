//! Reader of input files: `read_input` accepts exactly the texts whose lines have the forms of the table,
//! and gives what each line says, or the refusal at the first place.
#![tactic(auto)]

mod call;
mod class;
mod fault;
mod form;
pub mod laws;
mod lexeme;
mod line;
mod plain;
mod reader;
mod says;

pub use call::{Call, EventForm, Form, GroupForm, JobForm, RunForm, TextForm, Time, VariableForm};
pub use fault::InputFault;
pub use reader::read_input;
