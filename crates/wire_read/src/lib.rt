// Events, commands, messages and entries read from their bytes, with no copy: numbers by value, texts and entries as slices.
#![tactic(auto)]

pub mod command;
pub mod event;
pub mod forward;
pub mod message;
pub mod parts;
pub mod read;
