// The letters of an answer: first those that the event itself leaves to be sent, then entries to all.
ghost use Rattle.std.specs.Prelude.{◌≡◌, ◌+◌, ◌≤◌, ◌++◌, length};
ghost use Rattle.wire.specs.Write.{write_letters, write_number};
ghost use Rattle.wire_write.specs.Put.{Room, Wrote};
ghost use Rattle.state.specs.View.{limits_of, state_of};
ghost use Rattle.server.specs.First.{first_of, entries_if, letters_of};

use sending::letter::{write_appended_letter, write_vote_letter};
use sending::others::{ask_all, others, to_all};
use state::view::View;
use wire_write::writer::Writer;

// What goes out before entries: nothing, requests for votes, a vote to a server, or a reply to entries.
#[derive(Clone, Copy)]
pub enum First {
    Nothing,
    Asks,
    Vote(u8, u64, bool),
    Reply(u8, u64, u64, bool),
}

fn count_first(mem: View<'_>, first: First) -> u64
    ensures value { result ≡ length (first_of (limits_of mem.entry) (state_of mem.entry) first) }
    ensures low { result ≤ 16 }
{
    match first {
        First::Nothing => 0,
        First::Asks => others(mem),
        First::Vote(..) => 1,
        First::Reply(..) => 1,
    }
}

fn count_entries(mem: View<'_>, send: bool) -> u64
    ensures value { result ≡ length (entries_if send (limits_of mem.entry) (state_of mem.entry)) }
    ensures low { result ≤ 16 }
{
    if send { others(mem) } else { 0 }
}

fn write_first(mem: View<'_>, to: &mut Writer<'_>, first: First)
    requires room { Room (length (write_letters (first_of (limits_of mem) (state_of mem) first))) to.old }
    ensures { Wrote (write_letters (first_of (limits_of mem.entry) (state_of mem.entry) first)) to.old to.new }
{
    match first {
        First::Nothing => {}
        First::Asks => ask_all(mem, to),
        First::Vote(h, term, granted) => write_vote_letter(to, h, term, granted),
        First::Reply(h, term, index, ok) => write_appended_letter(to, h, term, index, ok),
    }
}

fn write_entries_if(mem: View<'_>, to: &mut Writer<'_>, send: bool)
    requires room { Room (length (write_letters (entries_if send (limits_of mem) (state_of mem)))) to.old }
    ensures { Wrote (write_letters (entries_if send (limits_of mem.entry) (state_of mem.entry))) to.old to.new }
{
    if send {
        to_all(mem, to);
    }
}

// The letters, with their number before them, which is returned.
pub fn write_letters(mem: View<'_>, to: &mut Writer<'_>, first: First, send: bool) -> u64
    requires room { Room (8 + length (write_letters (letters_of send (limits_of mem) (state_of mem) first))) to.old }
    ensures count { result ≡ length (letters_of send (limits_of mem.entry) (state_of mem.entry) first) }
    ensures bytes { Wrote
        (write_number (length (letters_of send (limits_of mem.entry) (state_of mem.entry) first))
        ++ write_letters (letters_of send (limits_of mem.entry) (state_of mem.entry) first))
        to.old to.new }
{
    let count = count_first(mem, first) + count_entries(mem, send);
    to.number(count);
    write_first(mem, to, first);
    write_entries_if(mem, to, send);
    count
}
