// Numbers, texts, messages and answers written into their bytes, each byte once, in a part of what is lent.
#![tactic(auto)]

pub mod answer;
pub mod message;
pub mod promises;
pub mod words;
pub mod writer;
