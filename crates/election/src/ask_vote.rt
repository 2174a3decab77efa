// A server is asked for its vote. It gives one vote a term, to who asks first, if it knows no leader of that term and the other's
// log is as new as its own.
ghost use Rattle.std.specs.Prelude.{◌≡◌, Bool, true, false, ◌&&◌, ◌||◌, List, [], ◌∷◌, ℕ, ◌<◌, ◌≤◌, ltb, leb, eqb, length};
ghost use Rattle.servers.specs.Server.{State, Letter, Message, ask_vote, last_of_all, as_new, empty, may_vote, asked, back};
ghost use Rattle.state.specs.Memory.{Becomes, limits_of, servers_in, state_of};
ghost use Rattle.state.specs.View as view;
ghost use Rattle.election.specs.Steps.{newer, carried};

use raft_log::find::last_term;
use state::view::View;
use state::words::Memory;

// What is said to who asks: the term, and whether it has the vote.
#[derive(Clone, Copy)]
pub struct Vote {
    pub term: u64,
    pub granted: bool,
}

// Whether a log that ends with the term `of` at the index `last` is as new as one of that length that ends with the term `own`: it
// ends with a later term, or with the same and is at least as long.
fn is_newer(own: u64, length: u64, of: u64, last: u64) -> bool
    ensures { result ≡ newer own length of last }
{
    (own, length) <= (of, last)
}

pub fn is_as_new(mem: View<'_>, last: u64, of: u64) -> bool
    ensures { result ≡ as_new last of (view.state_of mem.entry) }
{
    let length = mem.last_index();
    let own = last_term(mem.log());
    is_newer(own, length, of, last)
}

// Whether the vote of this term goes to h.
fn grants(mem: View<'_>, h: u64, last: u64, of: u64) -> bool
    requires here { h < view.servers_in mem }
    ensures { result ≡ (as_new last of (view.state_of mem.entry)
        && (empty (view.state_of mem.entry).leader && may_vote (view.state_of mem.entry).voted h)) }
{
    is_as_new(mem, last, of) && mem.may_vote(h)
}

pub fn asked_for_vote(mem: &mut Memory<'_>, h: u64, term: u64, last: u64, of: u64) -> Vote
    requires here { h < servers_in mem.old }
    requires low { term ≤ last_of_all }
    ensures state { Becomes mem.old mem.new (asked (state_of mem.old) h term last of) }
    ensures reply { back (state_of mem.old) h (ask_vote term last of) ≡ carried h result ∷ [] }
{
    let own = mem.term();
    if term < own {
        return Vote {
            term: own,
            granted: false,
        };
    }
    mem.advance(term);
    let granted = grants(mem.view(), h, last, of);
    if granted {
        mem.vote_for(h);
    }
    Vote { term, granted }
}
