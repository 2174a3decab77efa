// The votes that a candidate has: the bits of one word, counted.
ghost use Rattle.std.specs.Prelude.{◌≡◌, ℕ, ◌+◌, ◌/◌, ◌<◌, ◌≤◌, Bool, true, false, length};
ghost use Rattle.servers.specs.Server.{State, set_at, won};
ghost use Rattle.state.specs.States.{with_votes};

use crate::layout::VOTES;
use crate::limits::is_majority;
use crate::view::View;
use crate::words::Memory;

impl View<'_> {
    ghost use Rattle.state.specs.View.{limits_of, state_of};

    // Whether more than half voted for this server.
    pub fn has_won(self) -> bool
        ensures { result ≡ won (limits_of self.entry) (state_of self.entry).votes }
    {
        let all = self.limits();
        is_majority(all, self.words[VOTES].count_ones())
    }
}

impl Memory<'_> {
    ghost use Rattle.state.specs.Memory.{Becomes, limits_of, servers_in, state_of};

    // The vote of a server is added.
    pub fn add_vote(&mut self, h: u64)
        requires here { h < servers_in self.old }
        ensures { Becomes self.old self.new
            (with_votes (set_at (state_of self.old).votes h true) (state_of self.old)) }
    {
        self.words[VOTES] |= 1 << h;
    }

    pub fn has_won(&self) -> bool
        ensures { result ≡ won (limits_of self.now) (state_of self.now).votes }
    {
        self.view().has_won()
    }
}
