// The limits that a server is opened with, and the bounds that no server goes beyond.
ghost use Rattle.std.specs.Prelude.{◌≡◌, ℕ, ◌+◌, ◌/◌, ◌<◌, ◌≤◌, Bool, ◌&&◌, Ok, Err};
ghost use Rattle.servers.specs.Store.{pick};
ghost use Rattle.servers.specs.Opened.{opened, OpenedIsGood};

use std::fmt;

#[derive(Clone, Copy, PartialEq, Eq, Debug)]
pub struct Limits {
    pub servers: u64,
    pub me: u64,
    pub clients: u64,
    pub room: u64,
}

// One of the limits.
#[derive(Clone, Copy, PartialEq, Eq, Debug)]
pub enum Limit {
    Servers,
    Me,
    Clients,
    Room,
}

// As a command line spells it.
impl fmt::Display for Limit {
    fn fmt<W: fmt::Write>(&self, f: &mut fmt::Formatter<W>) -> fmt::Result {
        f.write_str(match self {
            Limit::Servers => "SERVERS",
            Limit::Me => "ME",
            Limit::Clients => "CLIENTS",
            Limit::Room => "ROOM",
        })
    }
}

impl Limits {
    pub const LEAST_SERVERS: u64 = 2;

    pub const MOST_SERVERS: u64 = 16;

    pub const MOST_CLIENTS: u64 = 4_096;

    pub const MOST_ROOM: u64 = 65_536;

    pub const LAST_TERM: u64 = 1 << 62;

    pub const LONGEST_NAME: usize = 64;

    pub const LONGEST_TEXT: usize = 256;

    // The limits, or the first of them that is out of its range.
    pub fn new(servers: u64, me: u64, clients: u64, room: u64) -> Result<Limits, Limit>
        ensures { result ≡ opened servers me clients room }
    {
        if !(Self::LEAST_SERVERS..=Self::MOST_SERVERS).contains(&servers) {
            return Err(Limit::Servers);
        }
        if me >= servers {
            return Err(Limit::Me);
        }
        if !(1..=Self::MOST_CLIENTS).contains(&clients) {
            return Err(Limit::Clients);
        }
        if !(1..=Self::MOST_ROOM).contains(&room) {
            return Err(Limit::Room);
        }
        Ok(Limits {
            servers,
            me,
            clients,
            room,
        })
    }

    // How many servers are more than half of them.
    pub fn majority(self) -> u64
        ensures { result ≡ self.servers / 2 + 1 }
    {
        self.servers / 2 + 1
    }
}

// Limits that were opened are the good ones that the promises speak of.
pub fn opened_is_good()
    ensures { OpenedIsGood }
{}
