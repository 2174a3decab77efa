// What stands between the programs and the world: arguments, records of a file, and the messages that say what is wrong.
#![tactic(auto)]

pub mod arguments;
pub mod feed;
