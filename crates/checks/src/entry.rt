// The checks of commands and entries, each by its fields.
ghost use Rattle.std.specs.Prelude.{◌≡◌};
ghost use Rattle.std.specs.Bool.{then_some};
ghost use Rattle.servers.specs.Opened.{limits_of};
ghost use Rattle.servers.specs.Server.{short};
ghost use Rattle.wire_read.specs.Means.{command_of, entry_of};
ghost use Rattle.checks.specs.Refusals.{can_do, good_entry};

use crate::fields::{brief, client_there, server_there, term_there};
use servers::limits::Limits;
use wire_read::parts::{Command, Entry};

// A command's name, and its texts: one that it lacks is as brief as an empty one.
#[tactic(auto, unfolding(servers::specs::Server::all_short))]
pub fn brief_command(command: Command<'_>) -> Option<Command<'_>>
    ensures { result ≡ then_some (short (command_of command.entry)) command.entry }
{
    let (name, expected, text): (&[u8], &[u8], &[u8]) = match command {
        Command::Get(name) | Command::Remove(name) => (name, &[], &[]),
        Command::Put(name, text) | Command::DropIf(name, text) => (name, &[], text),
        Command::Swap(name, expected, text) => (name, expected.unwrap_or(&[]), text),
    };
    brief(name, Limits::LONGEST_NAME)?;
    brief(expected, Limits::LONGEST_TEXT)?;
    brief(text, Limits::LONGEST_TEXT)?;
    Some(command)
}

pub fn sound_entry(l: Limits, entry: Entry<'_>) -> Option<Entry<'_>>
    ensures { result ≡ then_some (good_entry (limits_of can_do l) (entry_of entry.entry)) entry.entry }
{
    let client = client_there(l, entry.client)?;
    let at = server_there(l, entry.at)?;
    let command = brief_command(entry.command)?;
    let term = term_there(entry.term)?;
    Some(Entry {
        at,
        client,
        term,
        command,
        ..entry
    })
}
