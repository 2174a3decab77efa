// The limits of a server, read from its memory, and what follows from them.
ghost use Rattle.std.specs.Prelude.{◌≡◌, ℕ, ◌+◌, ◌*◌, ◌/◌, ◌^◌, ◌<◌, ◌≤◌, length, nat_lt};
ghost use Rattle.memory.specs.Layout.{log_at, store_at, cache_at};

use crate::layout::{CLIENTS, HEAD, ME, ROOM, SERVERS, SESSION};
use crate::view::View;
use crate::words::Memory;
use raft_log::row::ROW;
use servers::limits::Limits;

// Whether so many servers are more than half.
pub fn is_majority(limits: Limits, many: u32) -> bool
    requires { limits.servers ≤ 16 }
    ensures { result ≡ nat_lt (limits.servers / 2) many }
{
    limits.majority() <= u64::from(many)
}

impl View<'_> {
    ghost use Rattle.state.specs.View.{limits_held, servers_in};

    pub fn limits(self) -> Limits
        ensures { result ≡ limits_held self.entry }
    {
        Limits {
            servers: self.words[SERVERS],
            me: self.words[ME],
            clients: self.words[CLIENTS],
            room: self.words[ROOM],
        }
    }

    pub fn servers(self) -> usize
        ensures { result ≡ servers_in self.entry }
    {
        self.words[SERVERS] as usize
    }

    // Where the clients' sessions, the log and the store begin.
    pub fn sessions_at(self) -> usize
        ensures { result ≡ cache_at self.entry.words.now }
    {
        HEAD + 2 * self.words[SERVERS] as usize
    }

    pub fn log_at(self) -> usize
        ensures { result ≡ log_at self.entry.words.now }
    {
        self.sessions_at() + SESSION * self.words[CLIENTS] as usize
    }

    pub fn store_at(self) -> usize
        ensures { result ≡ store_at self.entry.words.now }
    {
        self.log_at() + ROW * self.words[ROOM] as usize
    }
}

impl Memory<'_> {
    ghost use Rattle.state.specs.Memory.{limits_held, servers_in};

    pub fn limits(&self) -> Limits
        ensures { result ≡ limits_held self.now }
    {
        self.view().limits()
    }

    pub fn servers(&self) -> usize
        ensures { result ≡ servers_in self.now }
    {
        self.view().servers()
    }

    pub fn sessions_at(&self) -> usize
        ensures { result ≡ cache_at self.now.words.now }
    {
        self.view().sessions_at()
    }

    pub fn log_at(&self) -> usize
        ensures { result ≡ log_at self.now.words.now }
    {
        self.view().log_at()
    }

    pub fn store_at(&self) -> usize
        ensures { result ≡ store_at self.now.words.now }
    {
        self.view().store_at()
    }
}
