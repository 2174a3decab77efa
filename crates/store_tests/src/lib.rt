// Tests of the store: what its commands leave and tell, at names and texts of every kind.
#![tactic(auto)]

pub mod calls;
#[cfg(test)]
mod tests;
