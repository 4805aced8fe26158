//! Tests of what sessions are sent: a source of entries keeps the messages of whole runs under journals. The page
//! RULES of the documents has the rules of sessions, and FORMATS the messages.
#![tactic(auto)]

#[cfg(test)]
mod listener;
#[cfg(test)]
mod rows;
