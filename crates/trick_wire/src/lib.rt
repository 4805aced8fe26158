//! One client's links: a queue between two threads, a reader that puts a client's lines into one, a writer that takes
//! messages out of another, and what the caller knows once it has both back.
#![tactic(auto)]

mod ends;
mod fed_line;
mod heard;
mod join;
mod letterbox;
mod line_feed;
mod queue;
mod reader;
mod rule;
mod works;
mod writer;

pub use ends::channel;
pub use fed_line::FedLine;
pub use heard::{Heard, Message, ReadStop, WriteStop};
pub use join::{end_reader, end_writer};
pub use queue::{Putter, Shared, Taker};
pub use reader::{ReaderDone, read_all};
pub use rule::{InOrder, Side};
pub use works::{Reader, Writer};
pub use writer::{WriterDone, write_all};
