// A session: whole records of events, one after the other, from a buffer to a buffer of records of answers.
#![tactic(auto)]

pub mod run;
