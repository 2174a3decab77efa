// What is sent to all other servers.
ghost use Rattle.std.specs.Prelude.{◌≡◌, ℕ, ◌<◌, length};
ghost use Rattle.servers.specs.Server.{Message, to_others};
ghost use Rattle.wire.specs.Write.{write_letters};
ghost use Rattle.wire_write.specs.Put.{Room, Wrote};
ghost use Rattle.state.specs.View.{me_in, servers_in, state_of};
ghost use Rattle.sending.specs.Letters.{post, asks_to_all, entries_to_all};
ghost use Rattle.sending.specs.Others.{message_to, letters_to_all};

use crate::letter::{write_ask_letter, write_entries_letter};
use state::view::View;
use wire_write::writer::Writer;

// Who stands asks for votes; who leads sends entries. As a closure, each letter's promise would be stated again over references to bytes.
#[derive(Clone, Copy)]
enum Sent {
    Ask,
    Entries,
}

// How many others there are: so many letters go to all of them.
pub fn others(mem: View<'_>) -> u64
    ensures { (f : ℕ → Message) → result ≡ length (to_others (servers_in mem.entry) (me_in mem.entry) f) }
{
    mem.limits().servers - 1
}

fn write_one(mem: View<'_>, to: &mut Writer<'_>, h: usize, sent: Sent)
    requires here { h < servers_in mem }
    requires room { Room (length (post h (message_to sent (state_of mem) h))) to.old }
    ensures { Wrote (post h (message_to sent (state_of mem.entry) h)) to.old to.new }
{
    match sent {
        Sent::Ask => write_ask_letter(mem, to, h),
        Sent::Entries => write_entries_letter(mem, to, h),
    }
}

fn write_all(mem: View<'_>, to: &mut Writer<'_>, sent: Sent)
    requires room { Room (length (write_letters (letters_to_all sent mem))) to.old }
    ensures { Wrote (write_letters (letters_to_all sent mem.entry)) to.old to.new }
{
    let all = mem.limits();
    for h in 0..all.servers as usize {
        if h != all.me as usize {
            write_one(mem, to, h, sent);
        }
    }
}

// A candidate's letters, of the term that it stands in.
pub fn ask_all(mem: View<'_>, to: &mut Writer<'_>)
    requires room { Room (length (write_letters (asks_to_all mem))) to.old }
    ensures { Wrote (write_letters (asks_to_all mem.entry)) to.old to.new }
{
    write_all(mem, to, Sent::Ask);
}

// A leader's.
pub fn to_all(mem: View<'_>, to: &mut Writer<'_>)
    requires room { Room (length (write_letters (entries_to_all mem))) to.old }
    ensures { Wrote (write_letters (entries_to_all mem.entry)) to.old to.new }
{
    write_all(mem, to, Sent::Entries);
}
