// Another server says whether it has entries up to an index. If it has, its match and next index go up; if it lacks what stands
// before them, its next index goes down by one, to try again with more.
ghost use Rattle.std.specs.Prelude.{◌≡◌, ℕ, ◌+◌, ◌-◌, ◌<◌, ◌≤◌, Bool, true, false};
ghost use Rattle.servers.specs.Server.{State, last_of_all, hears_appended};
ghost use Rattle.state.specs.Memory.{Becomes, limits_of, room_in, servers_in, state_of};
ghost use Rattle.replication.specs.Heard.{heard_from, has_state, lacks_state};

use state::words::Memory;

// What it says, by case, each with a state of its own after it.
#[derive(Clone, Copy)]
pub enum Heard {
    // of another term than the server's own
    OtherTerm,
    // that the other has the entries up to an index
    Has(u64),
    // that it lacks what stands before them
    Lacks,
}

fn hear(own: u64, term: u64, index: u64, ok: bool) -> Heard
    ensures { result ≡ heard_from own term index ok }
{
    if own != term {
        return Heard::OtherTerm;
    }
    if ok { Heard::Has(index) } else { Heard::Lacks }
}

// Both indices only go up.
fn has(mem: &mut Memory<'_>, h: usize, index: u64)
    requires here { h < servers_in mem.old }
    requires low { index ≤ room_in mem.old }
    ensures { Becomes mem.old mem.new (has_state (state_of mem.old) h index) }
{
    let next = mem.next_for(h).max(index + 1);
    let known = mem.match_of(h).max(index);
    mem.set_next(h, next);
    mem.set_match(h, known);
}

fn lacks(mem: &mut Memory<'_>, h: usize)
    requires here { h < servers_in mem.old }
    ensures { Becomes mem.old mem.new (lacks_state (state_of mem.old) h) }
{
    let next = mem.next_for(h);
    mem.set_next(h, next.saturating_sub(1));
}

pub fn appended_comes(mem: &mut Memory<'_>, h: usize, term: u64, index: u64, ok: bool)
    requires here { h < servers_in mem.old }
    requires low { term ≤ last_of_all }
    requires within { index ≤ room_in mem.old }
    ensures { Becomes mem.old mem.new
        (hears_appended (state_of mem.old) h term index ok) }
{
    let own = mem.term();
    match hear(own, term, index, ok) {
        Heard::OtherTerm => mem.advance(term),
        Heard::Has(up_to) => has(mem, h, up_to),
        Heard::Lacks => lacks(mem, h),
    }
}
