// What writes the log: a client's request at a leader, and the entries that a leader sends.
#![tactic(auto)]

pub mod append;
pub mod request;
pub mod rows;
