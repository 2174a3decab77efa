// A group of servers in one process: what it keeps, and what is promised of it.
#![tactic(auto)]

pub mod happen;
pub mod journal;
pub mod open;
pub mod promises;
