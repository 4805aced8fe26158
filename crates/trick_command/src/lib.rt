//! The lines of clients: their bytes come in pieces, cut anywhere, and lines go out one by one; and the reader of these
//! lines, and of the actions which the reads and the events of an input ask a run for. The forms are those of
//! `trick_model`.
#![tactic(auto)]

mod fault;
mod feed;
mod feed_fault;
mod form;
pub mod laws;
mod lexeme;
mod line;
mod line_row;
mod path;
mod piece;
mod read;
mod reader;
mod row;
mod value;

pub use fault::ActionFault;
pub use feed::Feed;
pub use feed_fault::FeedFault;
pub use reader::{actions, command};
