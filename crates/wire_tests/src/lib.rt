// Good and damaged bytes of events of each kind: every beginning, a byte too many, every other byte in every place of a short
// one; and what the writers write, read again. Tests apart from the crates that they try, which would be proved twice.
#![tactic(auto)]

use wire_read::event::read_event;
use wire_read::parts::Event;

// The place where bytes cease to be an event, if they do.
pub fn place(b: &[u8]) -> Option<usize> {
    match read_event(b) {
        Event::Garbled(at) => Some(at),
        _ => None,
    }
}

// Whether these bytes are an event, and each beginning of them is refused at its end.
pub fn begins(b: &[u8]) -> bool {
    for n in 0..b.len() {
        if place(&b[0..n]) != Some(n) {
            return false;
        }
    }
    place(b).is_none()
}

#[cfg(test)]
mod tests;
