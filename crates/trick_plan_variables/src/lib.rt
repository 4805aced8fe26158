//! Variables that an input declares: reads their declarations, and adds their cells to a program or
//! a plan.
#![tactic(auto)]

mod cells;
mod declaration;
mod declaring;
mod fault;
pub mod laws;
mod spelled;
mod taken;

pub use declaration::Declaration;
pub use declaring::{add, declare};
pub use fault::DeclareFault;
pub use spelled::SpelledDeclaration;
pub use taken::{first_name, is_taken};
