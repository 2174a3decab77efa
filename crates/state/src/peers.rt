// What is known of each server: its next index (0 for none, else one more) and its match index.
ghost use Rattle.std.specs.Prelude.{◌≡◌, ℕ, ◌+◌, ◌-◌, ◌*◌, ◌<◌, ◌≤◌, List, [], ◌∷◌};
ghost use Rattle.servers.specs.Server.{State, nth, set_at, next_for, with_next};
ghost use Rattle.state.specs.States.{with_matches, forgot};

use crate::layout::{HEAD, LENGTH, SERVERS};
use crate::view::View;
use crate::words::Memory;

impl View<'_> {
    ghost use Rattle.state.specs.View.{room_in, servers_in, state_of};

    // The next index for a server; where none is known, the log's last index.
    pub fn next_for(self, h: usize) -> u64
        requires here { h < servers_in self }
        ensures value { result ≡ next_for (state_of self.entry) h }
        ensures low { result ≤ room_in self.entry + 1 }
    {
        self.words[HEAD + h]
            .checked_sub(1)
            .unwrap_or(self.words[LENGTH])
    }

    // Up to where a server has the log, as far as is known.
    pub fn match_of(self, h: usize) -> u64
        requires here { h < servers_in self }
        ensures value { result ≡ nth 0 (state_of self.entry).matches h }
        ensures low { result ≤ room_in self.entry }
    {
        self.words[HEAD + self.words[SERVERS] as usize + h]
    }
}

impl Memory<'_> {
    ghost use Rattle.state.specs.Memory.{Becomes, limits_of, room_in, servers_in, state_of};

    pub fn next_for(&self, h: usize) -> u64
        requires here { h < servers_in self.now }
        ensures value { result ≡ next_for (state_of self.now) h }
        ensures low { result ≤ room_in self.now + 1 }
    {
        self.view().next_for(h)
    }

    pub fn set_next(&mut self, h: usize, n: u64)
        requires here { h < servers_in self.old }
        requires low { n ≤ room_in self.old + 1 }
        ensures { Becomes self.old self.new (with_next h n (state_of self.old)) }
    {
        self.words[HEAD + h] = n + 1;
    }

    pub fn match_of(&self, h: usize) -> u64
        requires here { h < servers_in self.now }
        ensures value { result ≡ nth 0 (state_of self.now).matches h }
        ensures low { result ≤ room_in self.now }
    {
        self.view().match_of(h)
    }

    pub fn set_match(&mut self, h: usize, i: u64)
        requires here { h < servers_in self.old }
        requires low { i ≤ room_in self.old }
        ensures { Becomes self.old self.new
            (with_matches (set_at (state_of self.old).matches h i) (state_of self.old)) }
    {
        let servers = self.words[SERVERS] as usize;
        self.words[HEAD + servers + h] = i;
    }

    // Nothing is known of any server.
    pub fn forget(&mut self)
        ensures { Becomes self.old self.new (forgot (limits_of self.old) (state_of self.old)) }
    {
        let servers = self.words[SERVERS] as usize;
        self.words[HEAD..HEAD + 2 * servers].fill(0);
    }
}
