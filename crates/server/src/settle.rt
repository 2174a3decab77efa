// Whether entries are to be sent: asked once, and then there is no reason any more.
ghost use Rattle.std.specs.Prelude.{◌≡◌, ◌&&◌, ◌==◌};
ghost use Rattle.servers.specs.Server.{sent_now};
ghost use Rattle.state.specs.Memory.{Becomes, state_of};

use state::words::Memory;

// Whether this server leads and has reason to send; a leader has none afterwards.
pub fn take_send(mem: &mut Memory<'_>) -> bool
    ensures state { Becomes mem.old mem.new (sent_now (state_of mem.old)) }
    ensures value { result ≡ ((state_of mem.old).kind == 2 && (state_of mem.old).send) }
{
    let leads = mem.is_leader();
    if !leads {
        return false;
    }
    let send = mem.must_send();
    mem.set_send(false);
    send
}
