// Readers of commands and entries.
ghost use Rattle.wire.specs.Read.{read_command, read_entry};
ghost use Rattle.wire_read.specs.Means.{Reads, command_of, entry_of};

use crate::parts::{Command, Entry};
use crate::read::{Stuck, read_byte, read_number, read_perhaps, read_text};

#[tactic(auto, unfolding(wire::specs::Read::read_command))]
pub fn read_command(b: &[u8]) -> Result<(Command<'_>, &[u8]), Stuck>
    ensures { Reads command_of (read_command b.now) result }
{
    match b {
        [] => Err(Stuck { left: 0 }),
        [0, rest @ ..] => {
            let (name, rest) = read_text(rest)?;
            Ok((Command::Get(name), rest))
        }
        [1, rest @ ..] => {
            let (name, rest) = read_text(rest)?;
            let (text, rest) = read_text(rest)?;
            Ok((Command::Put(name, text), rest))
        }
        [2, rest @ ..] => {
            let (name, rest) = read_text(rest)?;
            Ok((Command::Remove(name), rest))
        }
        [3, rest @ ..] => {
            let (name, rest) = read_text(rest)?;
            let (expected, rest) = read_perhaps(rest)?;
            let (text, rest) = read_text(rest)?;
            Ok((Command::Swap(name, expected, text), rest))
        }
        [4, rest @ ..] => {
            let (name, rest) = read_text(rest)?;
            let (text, rest) = read_text(rest)?;
            Ok((Command::DropIf(name, text), rest))
        }
        _ => Err(Stuck { left: b.len() }),
    }
}

#[tactic(auto, unfolding(wire::specs::Read::read_entry))]
pub fn read_entry(b: &[u8]) -> Result<(Entry<'_>, &[u8]), Stuck>
    ensures { Reads entry_of (read_entry b.now) result }
{
    let (at, rest) = read_byte(b)?;
    let (client, rest) = read_number(rest)?;
    let (id, rest) = read_number(rest)?;
    let (index, rest) = read_number(rest)?;
    let (term, rest) = read_number(rest)?;
    let (command, rest) = read_command(rest)?;
    Ok((
        Entry {
            at,
            client,
            id,
            index,
            term,
            command,
        },
        rest,
    ))
}
