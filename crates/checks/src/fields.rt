// Each field's check hands on its value, or none.
ghost use Rattle.std.specs.Prelude.{◌≡◌, ◌+◌, not, ◌==◌, nat_le, nat_lt};
ghost use Rattle.std.specs.Bool.{then_some};
ghost use Rattle.servers.specs.Server.{last_of_all, short_text};
ghost use Rattle.checks.specs.Refusals.{can_do};

use servers::limits::Limits;

// Whether these servers can start again.
pub fn can_restart() -> bool
    ensures { result ≡ can_do 3 }
{
    false
}

pub fn client_there(l: Limits, client: u64) -> Option<u64>
    ensures { result ≡ then_some (nat_lt client l.clients) client }
{
    (client < l.clients).then_some(client)
}

pub fn server_there(l: Limits, server: u8) -> Option<u8>
    ensures { result ≡ then_some (nat_lt server l.servers) server }
{
    (u64::from(server) < l.servers).then_some(server)
}

// No message comes from the server itself.
pub fn another(l: Limits, server: u8) -> Option<u8>
    ensures { result ≡ then_some (not (server == l.me)) server }
{
    (u64::from(server) != l.me).then_some(server)
}

pub fn term_there(term: u64) -> Option<u64>
    ensures { result ≡ then_some (nat_le term last_of_all) term }
{
    (term <= Limits::LAST_TERM).then_some(term)
}

pub fn index_there(l: Limits, index: u64) -> Option<u64>
    ensures { result ≡ then_some (nat_le index l.room) index }
{
    (index <= l.room).then_some(index)
}

// A text no longer than the longest.
pub fn brief(text: &[u8], longest: usize) -> Option<&[u8]>
    ensures { result ≡ then_some (short_text longest text.now) text.entry }
{
    (text.len() <= longest).then_some(text)
}

// Whether an entry stands at its place: so many after the index before, with no sum that could wrap.
pub fn stands(index: u64, before: u64, after: u64) -> bool
    ensures { result ≡ (index == before + after) }
{
    index >= before && index - before == after
}

// Whether the log has room for so many after an index that is within it.
pub fn has_room(l: Limits, before: u64, count: u64) -> bool
    ensures { result ≡ nat_le (before + count) l.room }
{
    before <= l.room && count <= l.room - before
}
