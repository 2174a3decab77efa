// The words of the head: term, vote, leader, role, votes, send, and how far the log is committed and applied. A vote, and a leader,
// is 0 for none, or one more than the server's number.
ghost use Rattle.std.specs.Prelude.{◌≡◌, ℕ, ◌+◌, ◌-◌, ◌*◌, ◌<◌, ◌≤◌, Bool, true, false, ◌&&◌, List, [], ◌∷◌, length, ◌==◌, slice_index};
ghost use Rattle.servers.specs.Server.{
  State,
  with_term,
  advanced,
  with_voted,
  with_commit,
  with_applied,
  with_send,
  following,
  wants,
  empty,
  may_vote,
  last_index,
  last_of_all,
};
ghost use Rattle.state.specs.States.{with_kind, calmed};

use crate::layout::{APPLIED, COMMIT, LEADER, LENGTH, ME, ROLE, SEND, TERM, VOTE, VOTES};
use crate::view::View;
use crate::words::Memory;

// A server follows, wants to lead, or leads: what its word says.
#[derive(Clone, Copy, PartialEq, Eq, Debug)]
pub enum Role {
    Follower = 0,
    Candidate = 1,
    Leader = 2,
}

impl View<'_> {
    ghost use Rattle.state.specs.View.{room_in, servers_in, state_of};

    pub fn term(self) -> u64
        ensures value { result ≡ (state_of self.entry).term }
        ensures low { result ≤ last_of_all }
    {
        self.words[TERM]
    }

    pub fn commit(self) -> u64
        ensures value { result ≡ (state_of self.entry).commit }
        ensures low { result ≤ room_in self.entry }
    {
        self.words[COMMIT]
    }

    pub fn applied(self) -> u64
        ensures value { result ≡ (state_of self.entry).applied }
        ensures low { result ≤ room_in self.entry }
    {
        self.words[APPLIED]
    }

    // The length of the log, which is its last index.
    pub fn last_index(self) -> u64
        ensures word { result ≡ slice_index self.entry.words.now 10 }
        ensures last { result ≡ last_index (state_of self.entry).log }
        ensures low { result ≤ room_in self.entry }
    {
        self.words[LENGTH]
    }

    pub fn is_leader(self) -> bool
        ensures { result ≡ ((state_of self.entry).kind == 2) }
    {
        self.words[ROLE] == Role::Leader as u64
    }

    pub fn is_candidate(self) -> bool
        ensures { result ≡ ((state_of self.entry).kind == 1) }
    {
        self.words[ROLE] == Role::Candidate as u64
    }

    // Whether the server knows no leader, and gave its vote to nobody but h.
    pub fn may_vote(self, h: u64) -> bool
        requires here { h < servers_in self }
        ensures { result ≡ (empty (state_of self.entry).leader && may_vote (state_of self.entry).voted h) }
    {
        self.words[LEADER] == 0 && (self.words[VOTE] == 0 || self.words[VOTE] == h + 1)
    }

    pub fn must_send(self) -> bool
        ensures { result ≡ (state_of self.entry).send }
    {
        self.words[SEND] == 1
    }
}

impl Memory<'_> {
    ghost use Rattle.state.specs.Memory.{Becomes, limits_of, room_in, servers_in, state_of};

    pub fn term(&self) -> u64
        ensures value { result ≡ (state_of self.now).term }
        ensures low { result ≤ last_of_all }
    {
        self.view().term()
    }

    pub fn commit(&self) -> u64
        ensures value { result ≡ (state_of self.now).commit }
        ensures low { result ≤ room_in self.now }
    {
        self.view().commit()
    }

    pub fn applied(&self) -> u64
        ensures value { result ≡ (state_of self.now).applied }
        ensures low { result ≤ room_in self.now }
    {
        self.view().applied()
    }

    pub fn last_index(&self) -> u64
        ensures word { result ≡ slice_index self.now.words.now 10 }
        ensures last { result ≡ last_index (state_of self.now).log }
        ensures low { result ≤ room_in self.now }
    {
        self.view().last_index()
    }

    pub fn is_leader(&self) -> bool
        ensures { result ≡ ((state_of self.now).kind == 2) }
    {
        self.view().is_leader()
    }

    pub fn is_candidate(&self) -> bool
        ensures { result ≡ ((state_of self.now).kind == 1) }
    {
        self.view().is_candidate()
    }

    pub fn may_vote(&self, h: u64) -> bool
        requires here { h < servers_in self.now }
        ensures { result ≡ (empty (state_of self.now).leader && may_vote (state_of self.now).voted h) }
    {
        self.view().may_vote(h)
    }

    // A newer term: no vote yet, no leader known, and the server follows.
    pub fn take_term(&mut self, t: u64)
        requires low { t ≤ last_of_all }
        ensures { Becomes self.old self.new (with_term t (state_of self.old)) }
    {
        let words = &mut *self.words;
        words[TERM] = t;
        words[VOTE] = 0;
        words[LEADER] = 0;
        words[ROLE] = Role::Follower as u64;
    }

    pub fn vote_for(&mut self, h: u64)
        requires here { h < servers_in self.old }
        ensures { Becomes self.old self.new (with_voted h (state_of self.old)) }
    {
        self.words[VOTE] = h + 1;
    }

    pub fn follow(&mut self, h: u64)
        requires here { h < servers_in self.old }
        ensures { Becomes self.old self.new (following h (state_of self.old)) }
    {
        let words = &mut *self.words;
        words[LEADER] = h + 1;
        words[ROLE] = Role::Follower as u64;
    }

    // A candidate of the next term, with its own vote.
    pub fn stand(&mut self)
        requires more { (state_of self.old).term < last_of_all }
        ensures { Becomes self.old self.new (wants (limits_of self.old) (state_of self.old)) }
    {
        let words = &mut *self.words;
        let me = words[ME];
        words[TERM] += 1;
        words[VOTE] = me + 1;
        words[VOTES] = 1 << me;
        words[ROLE] = Role::Candidate as u64;
    }

    pub fn lead(&mut self)
        ensures { Becomes self.old self.new (with_kind 2 (state_of self.old)) }
    {
        self.words[ROLE] = Role::Leader as u64;
    }

    // What a restart sets back in the head.
    pub fn calm(&mut self)
        ensures { Becomes self.old self.new (calmed (limits_of self.old) (state_of self.old)) }
    {
        let words = &mut *self.words;
        words[ROLE] = Role::Follower as u64;
        words[VOTES] = 0;
        words[SEND] = 0;
    }

    pub fn set_commit(&mut self, c: u64)
        requires low { c ≤ room_in self.old }
        ensures { Becomes self.old self.new (with_commit c (state_of self.old)) }
    {
        self.words[COMMIT] = c;
    }

    // The applied index only grows.
    pub fn set_applied(&mut self, a: u64)
        requires more { (state_of self.old).applied ≤ a }
        requires low { a ≤ room_in self.old }
        ensures { Becomes self.old self.new (with_applied a (state_of self.old)) }
    {
        self.words[APPLIED] = a;
    }

    // Whether there is reason to send entries.
    pub fn set_send(&mut self, send: bool)
        ensures { Becomes self.old self.new (with_send send (state_of self.old)) }
    {
        self.words[SEND] = u64::from(send);
    }

    pub fn must_send(&self) -> bool
        ensures { result ≡ (state_of self.now).send }
    {
        self.view().must_send()
    }

    // A term that is newer is taken; any other changes nothing.
    pub fn advance(&mut self, t: u64)
        requires low { t ≤ last_of_all }
        ensures { Becomes self.old self.new (advanced t (state_of self.old)) }
    {
        if self.term() < t {
            self.take_term(t);
        }
    }
}
