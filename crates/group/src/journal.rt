// The journals: an event as it came, written at the end of the others.
ghost use Rattle.std.specs.Prelude.{◌≡◌, ◌+◌, ◌≤◌, ◌∷◌, length};
ghost use Rattle.wire_write.specs.Put.{Writes};
ghost use Rattle.group.specs.Journals.{write_came};

use wire_write::writer::Writer;

// What a happening has in the journal of events besides the event: the server, and how many bytes.
pub const HEAD: usize = 9;

// An event that came to a server, and the place after it.
pub fn put_came(events: &mut [u8], at: usize, server: u8, event: &[u8]) -> usize
    requires { at + 9 + length event.now ≤ length events.old }
    ensures bytes { Writes at (write_came server event.now) events.old events.new result }
    ensures next { result ≡ at + 9 + length event.now }
{
    let mut to = Writer { out: events, at };
    to.byte(server);
    to.text(event);
    to.at
}

// A letter that comes: its message's bytes as they were sent, with the sender before them.
pub fn put_coming(events: &mut [u8], at: usize, server: u8, from: u8, message: &[u8]) -> usize
    requires { at + 11 + length message.now ≤ length events.old }
    ensures bytes { Writes at (write_came server (2 ∷ (from ∷ message.now))) events.old events.new result }
    ensures next { result ≡ at + 11 + length message.now }
{
    let mut to = Writer { out: events, at };
    to.byte(server);
    to.number(message.len() as u64 + 2);
    to.comes(from, message);
    to.at
}
