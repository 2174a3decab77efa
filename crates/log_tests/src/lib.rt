#![tactic(auto)]

// Tests of the log in words: rooms of one entry, empty logs, entries replaced in the middle, the longest commands.
#[cfg(test)]
mod tests;
