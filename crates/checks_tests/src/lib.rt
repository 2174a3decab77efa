#![tactic(auto)]

// Hostile events, and the events next to them that pass: each byte that a check looks at is moved across its bound.
#[cfg(test)]
mod tests;
