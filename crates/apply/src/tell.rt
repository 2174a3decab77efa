// What a client is told, written straight from its session: the last number done, and its reply.
ghost use Rattle.std.specs.Prelude.{◌≡◌, ◌-◌, ◌<◌, ◌≤◌, length, slice_index};
ghost use Rattle.wire.specs.Write.{write_said};
ghost use Rattle.wire_write.specs.Put.{Room, Wrote};
ghost use Rattle.memory.specs.Words.{cached_in};
ghost use Rattle.state.specs.View.{clients_in, state_of};
ghost use Rattle.apply.specs.Applied.{session, kept_for};

use state::view::View;
use wire_write::writer::Writer;

// What there is after the command goes first, then what was before.
fn write_session(to: &mut Writer<'_>, client: u64, kept: &[u64])
    requires size { length kept.now ≡ 68 }
    requires after { slice_index kept.now 2 ≤ 257 }
    requires before { slice_index kept.now 35 ≤ 257 }
    requires room { Room (length (write_said (kept_for client (cached_in kept.now)))) to.old }
    ensures { Wrote (write_said (kept_for client (cached_in kept.now))) to.old to.new }
{
    to.number(client);
    to.number(kept[1]);
    to.perhaps_in(&kept[2..35]);
    to.perhaps_in(&kept[35..68]);
}

pub fn tell(mem: View<'_>, client: usize, to: &mut Writer<'_>)
    requires there { client < clients_in mem }
    requires room { Room (length (write_said (kept_for client (session (state_of mem) client)))) to.old }
    ensures { Wrote (write_said (kept_for client (session (state_of mem.entry) client))) to.old to.new }
{
    write_session(to, client as u64, mem.session(client));
}
