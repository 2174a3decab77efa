// Elections: what a server does when time is up, when it is asked for its vote, when a vote comes,
// and when it starts again.
#![tactic(auto)]

pub mod ask_vote;
pub mod restart;
pub mod timeout;
pub mod vote;
