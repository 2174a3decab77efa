#![tactic(auto)]

// Tests of whole servers, from the bytes of events to the bytes of answers: a world of three, row by row, and hostile events.
#[cfg(test)]
mod harness;
#[cfg(test)]
mod hostile;
#[cfg(test)]
mod largest;
#[cfg(test)]
mod notation;
#[cfg(test)]
mod table;
