// The bytes of events, messages and answers: definitions and what is promised of them. The code is in wire_read and wire_write.
#![tactic(auto)]

pub mod promises;
