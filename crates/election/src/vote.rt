// A vote comes, or a no. Who wants to lead counts the votes of its term, and leads when more than half are for it; what it knew of the
// others' logs is set back then, since it is of another term.
ghost use Rattle.std.specs.Prelude.{◌≡◌, Bool, true, false, ℕ, ◌<◌, ◌≤◌, ltb, eqb, get_or};
ghost use Rattle.servers.specs.Server.{State, last_of_all, voted_on, hears_vote};
ghost use Rattle.state.specs.Memory.{Becomes, limits_of, servers_in, state_of};
ghost use Rattle.election.specs.Steps.{fresh, voted_by};

use state::words::Memory;
use std::cmp::Ordering;

// Nothing is known of the others, and all of the own log.
fn start_afresh(mem: &mut Memory<'_>)
    ensures { Becomes mem.old mem.new (fresh (limits_of mem.old) (state_of mem.old)) }
{
    let last = mem.last_index();
    let me = mem.limits().me;
    mem.forget();
    mem.set_match(me as usize, last);
}

// A vote more; who has more than half leads.
fn count_vote(mem: &mut Memory<'_>, h: u64)
    requires here { h < servers_in mem.old }
    ensures { Becomes mem.old mem.new
        (voted_by (limits_of mem.old) h (state_of mem.old)) }
{
    mem.add_vote(h);
    if mem.has_won() {
        mem.lead();
    }
}

// What a candidate does with a vote, or a no, of its own term.
fn hear(mem: &mut Memory<'_>, h: u64, granted: bool)
    requires here { h < servers_in mem.old }
    ensures { Becomes mem.old mem.new
        (voted_on (limits_of mem.old) h granted (state_of mem.old)) }
{
    start_afresh(mem);
    if granted {
        count_vote(mem, h);
    }
}

pub fn vote_comes(mem: &mut Memory<'_>, h: u64, term: u64, granted: bool)
    requires here { h < servers_in mem.old }
    requires low { term ≤ last_of_all }
    ensures { Becomes mem.old mem.new
        (hears_vote (limits_of mem.old) (state_of mem.old) h term granted) }
{
    match mem.term().cmp(&term) {
        Ordering::Less => mem.take_term(term),
        Ordering::Equal => {
            let counts = mem.is_candidate();
            if counts {
                hear(mem, h, granted);
            }
        }
        Ordering::Greater => {}
    }
}
