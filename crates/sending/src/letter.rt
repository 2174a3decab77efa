// One letter. Its message is written first, past the room for to whom it goes and how long it is: so each byte is written once, and
// no length has to be known before.
ghost use Rattle.std.specs.Prelude.{◌≡◌, ◌+◌, ◌-◌, ◌<◌, ◌≤◌, length};
ghost use Rattle.servers.specs.Server.{State, Message, vote, appended, next_for, to_server};
ghost use Rattle.wire_write.specs.Heads.{letter_head};
ghost use Rattle.wire_write.specs.Put.{Room, Writes, Wrote};
ghost use Rattle.state.specs.View.{servers_in, state_of};
ghost use Rattle.sending.specs.Letters.{post, asks};

use crate::append::write_append;
use raft_log::find::last_term;
use state::view::View;
use wire_write::writer::Writer;

// How many bytes stand before the message.
const HEAD: usize = 9;

// What stands before the message that was written last.
fn seal(to: &mut Writer<'_>, at: usize, h: u8)
    requires whole { at + 9 ≤ to.old.at }
    requires there { to.old.at ≤ length to.old.out.now }
    ensures same { to.new.out.ghost_name ≡ to.old.out.ghost_name }
    ensures head { Writes at (letter_head h (to.old.at - (at + 9))) to.old.out.now to.new.out.now (at + 9) }
    ensures end { to.new.at ≡ to.old.at }
{
    let end = to.at;
    to.at = at;
    to.letter_head(h, (end - (at + HEAD)) as u64);
    to.at = end;
}

// The reply to RequestVote.
pub fn write_vote_letter(to: &mut Writer<'_>, h: u8, term: u64, granted: bool)
    requires room { Room 19 to.old }
    ensures bytes { Wrote (post h (vote term granted)) to.old to.new }
    ensures at { to.new.at ≡ to.old.at + 19 }
{
    let at = to.at;
    to.at += HEAD;
    to.vote(term, granted);
    seal(to, at, h);
}

// The reply to AppendEntries.
pub fn write_appended_letter(to: &mut Writer<'_>, h: u8, term: u64, index: u64, ok: bool)
    requires room { Room 27 to.old }
    ensures bytes { Wrote (post h (appended term index ok)) to.old to.new }
    ensures at { to.new.at ≡ to.old.at + 27 }
{
    let at = to.at;
    to.at += HEAD;
    to.appended(term, index, ok);
    seal(to, at, h);
}

// RequestVote of who stands in its term.
pub fn write_ask_letter(mem: View<'_>, to: &mut Writer<'_>, h: usize)
    requires here { h < servers_in mem }
    requires room { Room (length (post h (asks (state_of mem)))) to.old }
    ensures { Wrote (post h (asks (state_of mem.entry))) to.old to.new }
{
    let term = mem.term();
    let len = mem.last_index();
    let last = last_term(mem.log());
    let at = to.at;
    to.at += HEAD;
    to.ask_vote(term, len, last);
    seal(to, at, h as u8);
}

// The index before the next one for a server: entries are sent from there on.
fn sent_before(mem: View<'_>, h: usize) -> u64
    requires here { h < servers_in mem }
    ensures { result ≡ next_for (state_of mem.entry) h - 1 }
{
    mem.next_for(h).saturating_sub(1)
}

// AppendEntries: the entries from a server's next index on.
pub fn write_entries_letter(mem: View<'_>, to: &mut Writer<'_>, h: usize)
    requires here { h < servers_in mem }
    requires room { Room (length (post h (to_server (state_of mem) h))) to.old }
    ensures { Wrote (post h (to_server (state_of mem.entry) h)) to.old to.new }
{
    let before = sent_before(mem, h);
    let term = mem.term();
    let commit = mem.commit();
    let at = to.at;
    to.at += HEAD;
    write_append(to, mem.log(), term, before, commit);
    seal(to, at, h as u8);
}
