//! Clients over TCP, on the address 127.0.0.1 alone: a door that takes them from a port, and the two links of each.
//!
//! They tell nothing of the bytes that come and go, since no clause can name what the system gives or takes. They stand
//! apart from the program so that what is trusted here is small, and is tried by itself.
#![tactic(auto)]

mod tcp_door;
mod tcp_links;

pub use tcp_door::TcpDoor;
pub use tcp_links::{TcpIn, TcpOut, links_of};
