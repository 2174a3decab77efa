// All that is committed and not yet applied is applied in order, and the clients of this server are told.
ghost use Rattle.std.specs.Prelude.{◌≡◌, ◌+◌, ◌-◌, ◌<◌, ◌≤◌, min, length};
ghost use Rattle.servers.specs.Server.{at_least, with_applied, finished};
ghost use Rattle.wire.specs.Write.{write_saids};
ghost use Rattle.wire_write.specs.Put.{Room, Wrote};
ghost use Rattle.state.specs.Memory.{Becomes, Turns, region_in, state_of};
ghost use Rattle.apply.specs.Applied.{next_one, region_one};
ghost use Rattle.apply.specs.InMemory.{entry_of, told_of, all_told, region_reached};

use crate::one::do_one;
use crate::tell::tell;
use state::words::Memory;
use wire_write::writer::Writer;

// Up to which index entries are due: as far as the log is committed, or to its end.
fn due_to(mem: &Memory<'_>) -> usize
    ensures { result ≡ min (state_of mem.now).commit (length (state_of mem.now).log) }
{
    let commit = mem.commit();
    let last = mem.last_index();
    commit.min(last) as usize
}

// The next entry, and how many clients are told of it: one or none. The applied index is moved first, so that there is room for what
// its command adds.
fn apply_next(mem: &mut Memory<'_>, index: usize, to: &mut Writer<'_>) -> u64
    requires next { index ≡ (state_of mem.old).applied + 1 }
    requires there { index ≤ length (state_of mem.old).log }
    requires room { Room (length (write_saids (told_of mem.old index))) to.old }
    ensures turns { Turns mem.old mem.new
        (next_one index (state_of mem.old) (entry_of mem.old index))
        (region_one (state_of mem.old) (entry_of mem.old index) (region_in mem.old)) }
    ensures bytes { Wrote (write_saids (told_of mem.old index)) to.old to.new }
    ensures count { result ≡ length (told_of mem.old index) }
{
    mem.set_applied(index as u64);
    match do_one(mem, index) {
        Some(client) => {
            tell(mem.view(), client as usize, to);
            1
        }
        None => 0,
    }
}

// What is committed counts as applied, also past the end of the log.
fn finish(mem: &mut Memory<'_>)
    ensures { Becomes mem.old mem.new
        (with_applied (at_least (state_of mem.old).applied (state_of mem.old).commit)
        (state_of mem.old)) }
{
    let done = mem.applied().max(mem.commit());
    mem.set_applied(done);
}

// How many clients were told. The bytes of what they are told go to the writer.
pub fn apply_all(mem: &mut Memory<'_>, to: &mut Writer<'_>) -> u64
    requires room { Room (length (write_saids (all_told mem.old))) to.old }
    ensures turns { Turns mem.old mem.new
        (finished (state_of mem.old)) (region_reached mem.old) }
    ensures bytes { Wrote (write_saids (all_told mem.old)) to.old to.new }
    ensures count { result ≡ length (all_told mem.old) }
{
    let end = due_to(mem);
    let applied = mem.applied() as usize;
    let mut count = 0;
    for done in applied..end {
        count += apply_next(mem, done + 1, to);
    }
    finish(mem);
    count
}
