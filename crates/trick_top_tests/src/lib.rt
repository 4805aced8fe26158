//! Tests of whole runs by the top call, by real threads and with clients over a door in memory: workers and clerks
//! are at work at one moment, and whatever threads do, however many could be started, the run writes what one thread
//! writes, under the journal that it leaves where a thread is asynchronous or a client comes; what a client is sent,
//! and how it leaves; what is left where calls of the shelf, the sink, the door, the links and the spawner fail. No
//! thread is left.
//!
//! All runs are of one instance of the top call, since the gate proves and builds each instance anew.
#![tactic(auto)]

#[cfg(test)]
mod deep;
#[cfg(test)]
mod failing;
#[cfg(test)]
mod gates;
#[cfg(test)]
mod left;
#[cfg(test)]
mod links;
#[cfg(test)]
mod plans;
#[cfg(test)]
mod rounds;
#[cfg(test)]
mod runs;
#[cfg(test)]
mod served;
#[cfg(test)]
mod thread_plans;
#[cfg(test)]
mod threads;
