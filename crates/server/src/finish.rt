// What follows every event: the leader settles, what is committed is applied and told, and letters go out.
ghost use Rattle.std.specs.Prelude.{◌≡◌, ◌≤◌, length};
ghost use Rattle.servers.specs.Server.{not_leader, after_all};
ghost use Rattle.state.specs.Memory.{limits_of, state_of};
ghost use Rattle.server.specs.Answered.{Finished, Room, finish_answer};
ghost use Rattle.server.specs.First.{first_of};

use crate::first::{First, write_letters};
use crate::settle::take_send;
use apply::all::apply_all;
use replication::commit::settle;
use state::words::Memory;
use wire_write::answer::Answer;
use wire_write::writer::Writer;

// Where what is told begins: after one byte and its number.
const TOLD: usize = 9;

// The number of what is told is written last, when it is known.
pub fn finish(mem: &mut Memory<'_>, out: &mut [u8], first: First) -> Answer
    requires room { Room mem.old (finish_answer (limits_of mem.old) (state_of mem.old) (first_of (limits_of mem.old) (state_of mem.old) first)) (length out.old) }
    ensures { Finished mem.old out.old mem.new out.new
        (first_of (limits_of mem.old) (state_of mem.old) first) result }
{
    settle(mem);
    let send = take_send(mem);
    let mut to = Writer { out, at: TOLD };
    let told = apply_all(mem, &mut to);
    let letters = write_letters(mem.view(), &mut to, first, send);
    let end = to.at;
    to.at = 0;
    to.does_head(told);
    Answer::Does(told, letters, end)
}
