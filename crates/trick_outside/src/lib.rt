//! What lies outside a run, as traits: a shelf of files, a sink of bytes, the links of clients and the
//! door that gives them, what starts threads, and a gate that workers pass. Beside them stand calls on
//! them that every layer above uses, and small forms in memory, for tests.
#![tactic(auto)]

mod door;
mod ended_door;
mod fault_plan;
mod gate;
mod link_in;
mod link_out;
mod list_spawner;
mod memory_out;
mod memory_shelf;
mod memory_sink;
mod print;
mod script_door;
mod script_in;
mod shelf;
mod sink;
mod spawner;
mod starting;
mod steps;
mod stop;
mod thread_spawner;
mod work;

pub use door::{Came, Door};
pub use ended_door::EndedDoor;
pub use gate::{Gate, NoGate};
pub use link_in::{LinkIn, Read1};
pub use link_out::LinkOut;
pub use list_spawner::ListSpawner;
pub use memory_out::MemoryOut;
pub use memory_shelf::MemoryShelf;
pub use memory_sink::MemorySink;
pub use print::{Printed, put};
pub use script_door::{Returned, ScriptDoor};
pub use script_in::ScriptIn;
pub use shelf::{Got, Shelf, Wrote};
pub use sink::{Sink, Taken1};
pub use spawner::Spawner;
pub use starting::start;
pub use steps::{append, create, get, write_file};
pub use stop::Stop;
pub use thread_spawner::ThreadSpawner;
pub use work::{Begun, Promised, Ran, Running, Work};
