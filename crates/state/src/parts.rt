// The parts of a memory that other crates read: the log's rows, a client's session and the store's region, each lent as a part that
// starts in the middle.
ghost use Rattle.std.specs.Prelude.{◌≡◌, ℕ, ◌+◌, ◌-◌, ◌*◌, ◌<◌, ◌≤◌, length};
ghost use Rattle.servers.specs.Server.{nth, no_cached};
ghost use Rattle.raft_log.specs.Places.{words_of, log_of, row_at};
ghost use Rattle.memory.specs.Words.{cached_words};
ghost use Rattle.memory.specs.Layout.{log_part, cache_at};

use crate::layout::{LENGTH, ROOM, SESSION};
use crate::view::View;
use crate::words::Memory;
use raft_log::row::{LogRow, ROW};

impl<'a> View<'a> {
    ghost use Rattle.state.specs.View.{clients_in, region_in, room_in, state_of};

    // The rows of the log, with those that it has room for.
    pub fn log_part(self) -> &'a [u64]
        ensures rows { result.now ≡ log_part self.entry.words.now }
        ensures long { length result.now ≡ 80 * room_in self.entry }
    {
        let at = self.log_at();
        &self.words[at..at + ROW * self.words[ROOM] as usize]
    }

    // The rows of the log, the oldest first.
    pub fn log(self) -> &'a [LogRow]
        ensures log { log_of result.now ≡ (state_of self.entry).log }
        ensures rows { (i : ℕ) → 0 < i → i ≤ length result.now → row_at i (words_of result.now) ≡ row_at i (log_part self.entry.words.now) }
        ensures long { length result.now ≡ length (state_of self.entry).log }
    {
        let start = self.log_at();
        let (rows, _) = self.words[start..start + ROW * self.words[LENGTH] as usize].as_chunks();
        rows
    }

    // Where the session of a client begins.
    pub fn session_at(self, client: usize) -> usize
        requires there { client < clients_in self }
        ensures value { result ≡ cache_at self.entry.words.now + 68 * client }
        ensures end { result + 68 ≤ length self.entry.words.now }
    {
        self.sessions_at() + SESSION * client
    }

    // The session of a client: whether it was ever answered, the last number, and the reply.
    pub fn session(self, client: usize) -> &'a [u64]
        requires there { client < clients_in self }
        ensures { result.now ≡ cached_words (nth no_cached (state_of self.entry).cache client) }
    {
        let at = self.session_at(client);
        &self.words[at..at + SESSION]
    }

    // The store's region.
    pub fn store(self) -> &'a [u64]
        ensures { result.now ≡ region_in self.entry }
    {
        let at = self.store_at();
        &self.words[at..]
    }
}

impl Memory<'_> {
    ghost use Rattle.state.specs.Memory.{clients_in, region_in, state_of};

    pub fn log(&self) -> &[LogRow]
        ensures log { log_of result.now ≡ (state_of self.now).log }
        ensures rows { (i : ℕ) → 0 < i → i ≤ length result.now → row_at i (words_of result.now) ≡ row_at i (log_part self.now.words.now) }
        ensures long { length result.now ≡ length (state_of self.now).log }
    {
        self.view().log()
    }

    pub fn session_at(&self, client: usize) -> usize
        requires there { client < clients_in self.now }
        ensures value { result ≡ cache_at self.now.words.now + 68 * client }
        ensures end { result + 68 ≤ length self.now.words.now }
    {
        self.view().session_at(client)
    }

    pub fn session(&self, client: usize) -> &[u64]
        requires there { client < clients_in self.now }
        ensures { result.now ≡ cached_words (nth no_cached (state_of self.now).cache client) }
    {
        self.view().session(client)
    }

    pub fn store(&self) -> &[u64]
        ensures { result.now ≡ region_in self.now }
    {
        self.view().store()
    }
}
