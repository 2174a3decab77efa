// ONE EVENT at the words of a server.
ghost use Rattle.std.specs.Prelude.{◌≡◌, ◌≤◌, length};
ghost use Rattle.wire.specs.Sizes.{answer_size};
ghost use Rattle.state.specs.Held.{limits_of};
ghost use Rattle.server.specs.Reached.{Reached};
ghost use Rattle.server.specs.Answered.{Stepped};

use crate::act::act;
use state::words::Memory;
use wire_write::answer::Answer;

// The answer says how many are told, how many letters there are and how many bytes, which stand at the front of `out`.
pub fn step(mem: &mut [u64], event: &[u8], out: &mut [u8]) -> Answer
    requires reached { Reached (limits_of mem.old) mem.old }
    requires room { answer_size (limits_of mem.old) ≤ length out.old }
    ensures done { Stepped mem.old event.now out.old mem.new out.new result }
    ensures reached { Reached (limits_of mem.new) mem.new }
    ensures limits { limits_of mem.new ≡ limits_of mem.old }
{
    let mut memory = Memory::new(mem);
    act(&mut memory, event, out)
}
