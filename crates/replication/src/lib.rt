// Replication: what a leader does with what the others say of its entries, and what it settles.
#![tactic(auto)]

pub mod appended;
pub mod commit;
