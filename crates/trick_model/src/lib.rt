//! The types of a simulation, and the rules of its run on one thread: definitions that everything
//! above cites.
#![tactic(auto)]

mod accepted;
mod action;
mod candidate;
mod command;
mod deed;
mod depends;
mod entry;
mod event;
mod faults;
mod flags;
mod group;
mod journal;
mod key_order;
pub mod laws;
mod mode;
mod names;
mod plan;
mod plan_jobs;
mod planned;
mod read_at;
mod session;
mod state;
mod taken;
mod thread;
mod world;

pub use accepted::Accepted;
pub use action::Action;
pub use candidate::Candidate;
pub use command::Command;
pub use deed::Deed;
pub use depends::Depends;
pub use entry::{Cause, Entry};
pub use event::Event;
pub use faults::{Faults, KEPT_FAULTS};
pub use flags::Flags;
pub use group::Group;
pub use journal::Journal;
pub use key_order::{is_of_class, precedes, rank};
pub use mode::Mode;
pub use names::{
    cell_name, cell_type, cell_type_or_long, instance_at, method_name, object_name, push_job_name,
    push_name_at,
};
pub use plan::Plan;
pub use planned::Planned;
pub use read_at::ReadAt;
pub use session::Session;
pub use state::{LAST_TURN, State};
pub use taken::Taken;
pub use thread::{Process, Thread, process_of};
pub use world::World;
