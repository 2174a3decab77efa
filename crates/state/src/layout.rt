// Where things stand in a server's memory, said once for the code as crates/memory/specs/Layout.antt says it for the proofs: the words of
// the head, then two words for each server, the clients' sessions, the rows of the log, and the store.
pub(crate) const SERVERS: usize = 1;

pub(crate) const ME: usize = 2;

pub(crate) const CLIENTS: usize = 3;

pub(crate) const ROOM: usize = 4;

pub(crate) const TERM: usize = 5;

pub(crate) const VOTE: usize = 6;

pub(crate) const LEADER: usize = 7;

pub(crate) const COMMIT: usize = 8;

pub(crate) const APPLIED: usize = 9;

pub const LENGTH: usize = 10;

pub(crate) const ROLE: usize = 11;

pub(crate) const VOTES: usize = 12;

pub(crate) const SEND: usize = 13;

// How many words the head has.
pub const HEAD: usize = 14;

// How many words a client's session has.
pub const SESSION: usize = 68;
