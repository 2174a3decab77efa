// The letters of an answer as bytes, straight from a server's memory: replies, entries to another server, and what is sent to all
// others. Each is written behind what was written before, and nothing else is changed.
#![tactic(auto)]

pub mod append;
pub mod letter;
pub mod others;
