// The text of a world: one line says what happens to a group of servers.
#![tactic(auto)]

pub mod fault;
pub mod line;
pub mod text;
pub mod words;
