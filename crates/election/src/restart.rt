// A server starts again: it has what it had written down, follows, and knows nothing of the others' logs.
ghost use Rattle.std.specs.Prelude.{◌≡◌};
ghost use Rattle.servers.specs.Server.{State, restarted};
ghost use Rattle.state.specs.Memory.{Becomes, limits_of, state_of};

use state::words::Memory;

pub fn start_again(mem: &mut Memory<'_>)
    ensures { Becomes mem.old mem.new
        (restarted (limits_of mem.old) (state_of mem.old)) }
{
    mem.forget();
    mem.calm();
}
