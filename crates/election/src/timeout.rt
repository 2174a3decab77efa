// Time is up. A leader has reason to send to the others. Anyone else stands for election: it goes to the next term, votes for itself,
// and asks the others for their votes.
ghost use Rattle.std.specs.Prelude.{◌≡◌, Bool, true, false, ◌||◌, ℕ, ◌<◌, ◌≤◌, ltb, eqb};
ghost use Rattle.servers.specs.Server.{State, timeout, first_step, last_of_all};
ghost use Rattle.state.specs.Memory.{Becomes, limits_of, state_of};
ghost use Rattle.state.specs.View as view;
ghost use Rattle.election.specs.Steps.{goes_on};

use servers::limits::Limits;
use state::view::View;
use state::words::Memory;

// Whether there is a next term to stand in, for who doesn't lead.
pub fn may_go_on(mem: View<'_>) -> bool
    ensures { result ≡ goes_on (view.state_of mem.entry) }
{
    let leads = mem.is_leader();
    let term = mem.term();
    leads || term < Limits::LAST_TERM
}

// Says whether the server leads; if not, it stands now, and asks for votes in its new term.
pub fn time_is_up(mem: &mut Memory<'_>) -> bool
    requires more { goes_on (state_of mem.old) ≡ true }
    ensures state { Becomes mem.old mem.new
        (first_step (limits_of mem.old) (state_of mem.old) timeout) }
    ensures leads { result ≡ eqb (state_of mem.old).kind 2 }
{
    let leads = mem.is_leader();
    if leads {
        mem.set_send(true);
    } else {
        mem.stand();
    }
    leads
}
