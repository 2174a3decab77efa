// One entry more at the end of a log: what a leader does with a request.
ghost use Rattle.std.specs.Prelude.{◌≡◌, ℕ, ◌+◌, ◌-◌, ◌*◌, ◌^◌, ◌<◌, ◌≤◌, ◌∷◌, length};
ghost use Rattle.wire_read.specs.Means.{command_of};
ghost use Rattle.raft_log.specs.Rows.{log_region};
ghost use Rattle.raft_log.specs.Places.{Log};
ghost use Rattle.raft_log.specs.Numbers.{entry_by};

use crate::row::{Numbers, ROW, pack_row, place};
use wire_read::parts::Command;

// The region of any log of that length becomes the region of the log with the entry.
pub fn push(region: &mut [u64], len: usize, numbers: Numbers, command: Command<'_>)
    requires low { len < 2 ^ 32 }
    requires room { 80 * (len + 1) ≤ length region.old }
    ensures { (room i : ℕ) (es : Log) → length es ≡ len → region.old ≡ log_region room es
        → region.new ≡ log_region room (entry_by numbers i (command_of command.entry) ∷ es) }
{
    let at = place(len + 1);
    pack_row(&mut region[at..at + ROW], numbers, command);
}
