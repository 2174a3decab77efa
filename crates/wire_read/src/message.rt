// Readers of messages. The entries of an append are passed over once, and stay where they are.
ghost use Rattle.wire.specs.Read.{read_append, read_entries, read_message};
ghost use Rattle.wire_read.specs.Means.{Reads, entries_of, message_of};

use crate::command::read_entry;
use crate::parts::{Entries, Message};
use crate::read::{Stuck, read_bool, read_number};

// So many entries, up to the first that is refused: a count that is too large costs only the bytes that are there.
pub fn read_entries(b: &[u8], count: u64) -> Result<(Entries<'_>, &[u8]), Stuck>
    ensures { Reads entries_of (read_entries count b.now) result }
{
    let mut rest = b;
    for _ in 0..count {
        let (_, after) = read_entry(rest)?;
        rest = after;
    }
    Ok((Entries { count, bytes: b }, rest))
}

#[tactic(auto, unfolding(wire::specs::Read::read_append))]
fn read_append(b: &[u8]) -> Result<(Message<'_>, &[u8]), Stuck>
    ensures { Reads message_of (read_append b.now) result }
{
    let (term, rest) = read_number(b)?;
    let (before, rest) = read_number(rest)?;
    let (before_term, rest) = read_number(rest)?;
    let (commit, rest) = read_number(rest)?;
    let (count, rest) = read_number(rest)?;
    let (entries, rest) = read_entries(rest, count)?;
    Ok((
        Message::Append(term, before, before_term, commit, entries),
        rest,
    ))
}

#[tactic(auto, unfolding(wire::specs::Read::read_message))]
pub fn read_message(b: &[u8]) -> Result<(Message<'_>, &[u8]), Stuck>
    ensures { Reads message_of (read_message b.now) result }
{
    match b {
        [] => Err(Stuck { left: 0 }),
        [0, rest @ ..] => {
            let (term, rest) = read_number(rest)?;
            let (index, rest) = read_number(rest)?;
            let (last_term, rest) = read_number(rest)?;
            Ok((Message::AskVote(term, index, last_term), rest))
        }
        [1, rest @ ..] => {
            let (term, rest) = read_number(rest)?;
            let (granted, rest) = read_bool(rest)?;
            Ok((Message::Vote(term, granted), rest))
        }
        [2, rest @ ..] => read_append(rest),
        [3, rest @ ..] => {
            let (term, rest) = read_number(rest)?;
            let (index, rest) = read_number(rest)?;
            let (ok, rest) = read_bool(rest)?;
            Ok((Message::Appended(term, index, ok), rest))
        }
        _ => Err(Stuck { left: b.len() }),
    }
}
