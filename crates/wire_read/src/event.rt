// THE READER of events: every slice of bytes is an event, or is garbled at a place.
ghost use Rattle.std.specs.Prelude.{◌≡◌};
ghost use Rattle.wire.specs.Read.{read_event, read_front};
ghost use Rattle.wire_read.specs.Means.{Reads, Within, means};

use crate::command::read_command;
use crate::message::read_message;
use crate::parts::Event;
use crate::read::{Stuck, read_byte, read_number};

#[tactic(auto, unfolding(wire::specs::Read::read_front))]
fn read_front(b: &[u8]) -> Result<(Event<'_>, &[u8]), Stuck>
    ensures { Reads means (read_front b.now) result }
{
    match b {
        [] => Err(Stuck { left: 0 }),
        [0, rest @ ..] => Ok((Event::Timeout, rest)),
        [1, rest @ ..] => {
            let (client, rest) = read_number(rest)?;
            let (id, rest) = read_number(rest)?;
            let (command, rest) = read_command(rest)?;
            Ok((Event::Request(client, id, command), rest))
        }
        [2, rest @ ..] => {
            let (from, rest) = read_byte(rest)?;
            let (message, rest) = read_message(rest)?;
            Ok((Event::Comes(from, message), rest))
        }
        [3, rest @ ..] => Ok((Event::Restart, rest)),
        _ => Err(Stuck { left: b.len() }),
    }
}

// Bytes after the end of an event are refused at the first of them.
pub fn read_event(b: &[u8]) -> Event<'_>
    ensures value { means result ≡ read_event b.now }
    ensures within { Within b.now result }
{
    match read_front(b) {
        Ok((event, [])) => event,
        Ok((_, after)) => Event::Garbled(b.len() - after.len()),
        Err(stuck) => Event::Garbled(b.len() - stuck.left),
    }
}
