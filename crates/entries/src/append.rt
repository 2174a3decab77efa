// AppendEntries comes: the entries of a leader, after one that the log has.
ghost use Rattle.std.specs.Prelude.{◌≡◌, ◌<◌, ◌≤◌, [], ◌∷◌};
ghost use Rattle.servers.specs.Server.{append, last_index, last_of_all, has_new, advanced, following, appends, back};
ghost use Rattle.wire_read.specs.Means.{entries_of};
ghost use Rattle.state.specs.Memory.{Becomes, room_in, servers_in, state_of};
ghost use Rattle.entries.specs.Steps.{CanTake, last_in, extended, extended_if, has_before, accepts, carried};

use crate::rows::replace_entries;
use raft_log::find;
use state::words::Memory;
use wire_read::forward::first_place;
use wire_read::parts::Entries;

// What is said to the leader: the term, the index of the last entry that came, and whether they were taken.
#[derive(Clone, Copy)]
pub struct Reply {
    pub term: u64,
    pub index: u64,
    pub ok: bool,
}

// Index and term of the last entry that came, 0 and 0 if none did.
#[derive(Clone, Copy)]
pub struct Last {
    pub index: u64,
    pub term: u64,
}

// The last entry comes first.
fn last_of(entries: Entries<'_>) -> Last
    ensures { result ≡ last_in (entries_of entries.entry) }
{
    if entries.count == 0 {
        return Last { index: 0, term: 0 };
    }
    let (index, term) = first_place(entries);
    Last { index, term }
}

// Whether what stands before the entries is there; index 0 always is.
fn has_before(mem: &Memory<'_>, before: u64, before_term: u64) -> bool
    ensures { result ≡ has_before (state_of mem.now) before before_term }
{
    before == 0 || find::has_term(mem.log(), before, before_term)
}

// Nothing of an older term is taken, nor what comes after an entry that isn't there.
fn accepts(mem: &Memory<'_>, term: u64, before: u64, before_term: u64) -> bool
    ensures { result ≡ accepts (state_of mem.now) term before before_term }
{
    mem.term() <= term && has_before(mem, before, before_term)
}

// Whether the entries, of which this is the last, bring anything new.
fn has_new(mem: &Memory<'_>, entries: Entries<'_>, last: Last) -> bool
    requires last { last ≡ last_in (entries_of entries) }
    ensures { result ≡ has_new (state_of mem.now) (entries_of entries.entry) }
{
    find::has_new(mem.log(), entries.count, last.index, last.term)
}

// The entries are written to their places, and the commit index goes up to what the leader says or the log's end, never down.
fn extend(mem: &mut Memory<'_>, before: u64, commit: u64, entries: Entries<'_>)
    requires low { commit ≤ room_in mem.old }
    requires within { before ≤ last_index (state_of mem.old).log }
    requires can { CanTake mem.old before entries }
    ensures { Becomes mem.old mem.new
        (extended (state_of mem.old) before (entries_of entries.entry) commit) }
{
    replace_entries(mem, before, entries);
    let own = mem.commit();
    let end = mem.last_index();
    mem.set_commit(own.max(commit.min(end)));
}

// Only what brings something new is written.
fn extend_by_new(mem: &mut Memory<'_>, before: u64, commit: u64, entries: Entries<'_>, last: Last)
    requires low { commit ≤ room_in mem.old }
    requires within { before ≤ last_index (state_of mem.old).log }
    requires can { CanTake mem.old before entries }
    requires last { last ≡ last_in (entries_of entries) }
    ensures { Becomes mem.old mem.new
        (extended_if (has_new (state_of mem.old) (entries_of entries.entry))
        (state_of mem.old) before (entries_of entries.entry) commit) }
{
    let new = has_new(mem, entries, last);
    if new {
        extend(mem, before, commit, entries);
    }
}

// A newer term is taken, and the sender is followed, whether its entries bring anything or not.
fn follow_leader(mem: &mut Memory<'_>, from: u64, term: u64)
    requires here { from < servers_in mem.old }
    requires low { term ≤ last_of_all }
    ensures { Becomes mem.old mem.new (following from (advanced term (state_of mem.old))) }
{
    mem.advance(term);
    mem.follow(from);
}

// The entries come after the one at `before`, of the term `before_term`.
pub fn append(
    mem: &mut Memory<'_>,
    from: u64,
    term: u64,
    before: u64,
    before_term: u64,
    commit: u64,
    entries: Entries<'_>,
) -> Reply
    requires here { from < servers_in mem.old }
    requires low { term ≤ last_of_all }
    requires commit { commit ≤ room_in mem.old }
    requires can { CanTake mem.old before entries }
    ensures state { Becomes mem.old mem.new
        (appends (state_of mem.old) from term before before_term (entries_of entries.entry) commit) }
    ensures reply { back (state_of mem.old) from
        (append term before before_term (entries_of entries.entry) commit) ≡ carried from result ∷ [] }
{
    let last = last_of(entries);
    let own = mem.term();
    let taken = accepts(mem, term, before, before_term);
    if !taken {
        return Reply {
            term: own,
            index: last.index,
            ok: false,
        };
    }
    extend_by_new(mem, before, commit, entries, last);
    follow_leader(mem, from, term);
    Reply {
        term,
        index: last.index,
        ok: true,
    }
}
