//! Data recording: the header of a group's log, and the row that a group writes at a tic. Logs are
//! CSV files, and `docs/FORMATS.md` has their form.
#![tactic(auto)]

mod fields;
mod group_of;
mod last_rows;
mod log_header;
mod recorder;
mod values;

pub use log_header::header;
pub use recorder::Recorder;
