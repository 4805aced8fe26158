//! The served run: the source of entries of a run with clients. Any number of sessions come and go; what their readers
//! put into their inboxes is given to the run, and what the run says to them goes into their outboxes.
#![tactic(auto)]

mod asks;
mod calls;
mod clients;
mod entries;
mod hang_up;
mod here;
mod roll;
mod served;

pub use here::ServedHere;
pub use roll::Roll;
pub use served::{Finished, Served};
