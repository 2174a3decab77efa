// The log in a server's memory: its rows are changed where they stand, and its length with them.
ghost use Rattle.std.specs.Prelude.{◌<◌, ◌≤◌};
ghost use Rattle.servers.specs.Server.{last_index};
ghost use Rattle.wire_read.specs.Means.{command_of, entries_of};
ghost use Rattle.state.specs.Memory.{Becomes, limits_of, room_in, state_of};
ghost use Rattle.memory.specs.Fits.{EntryFits};
ghost use Rattle.entries.specs.Steps.{CanTake, next_entry, pushed, replaced};

use raft_log::append::push;
use raft_log::replace::replace;
use raft_log::row::{Numbers, ROW};
use state::layout::LENGTH;
use state::words::Memory;
use wire_read::parts::{Command, Entries};

// One entry more at the log's end.
pub fn push_entry(mem: &mut Memory<'_>, numbers: Numbers, command: Command<'_>)
    requires room { last_index (state_of mem.old).log < room_in mem.old }
    requires good { EntryFits (limits_of mem.old) (next_entry (state_of mem.old) numbers (command_of command)) }
    ensures { Becomes mem.old mem.new
        (pushed (state_of mem.old) numbers (command_of command.entry)) }
{
    let at = mem.log_at();
    let end = at + ROW * mem.limits().room as usize;
    let len = mem.last_index();
    let words = &mut *mem.words;
    push(&mut words[at..end], len as usize, numbers, command);
    words[LENGTH] = len + 1;
}

// All after an index that the log has, or after 0, is replaced by the entries of a message.
pub fn replace_entries(mem: &mut Memory<'_>, before: u64, entries: Entries<'_>)
    requires within { before ≤ last_index (state_of mem.old).log }
    requires can { CanTake mem.old before entries }
    ensures { Becomes mem.old mem.new
        (replaced (state_of mem.old) before (entries_of entries.entry)) }
{
    let at = mem.log_at();
    let end = at + ROW * mem.limits().room as usize;
    let len = mem.last_index();
    let words = &mut *mem.words;
    replace(&mut words[at..end], len as usize, before as usize, entries);
    words[LENGTH] = before + entries.count;
}
