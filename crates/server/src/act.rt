// One event at a memory: its bytes are read and checked, and it is done, or refused with nothing changed.
ghost use Rattle.std.specs.Prelude.{◌≡◌, ◌<◌, ◌≤◌, true, length, Ok};
ghost use Rattle.servers.specs.Server.{comes, turned};
ghost use Rattle.servers.specs.Promise.{readable};
ghost use Rattle.wire.specs.Read.{read_event};
ghost use Rattle.wire_read.specs.Means.{means, message_of};
ghost use Rattle.state.specs.Memory.{limits_of, servers_in, state_of};
ghost use Rattle.checks.specs.Outcome.{Checked, PassedMessage};
ghost use Rattle.server.specs.Answered.{Answered, RoomFor};

use crate::refuse::refuse;
use crate::votes::{on_appended, on_ask, on_timeout, on_vote};
use crate::writes::{on_append, on_request};
use checks::check::check;
use state::words::Memory;
use wire_read::event::read_event;
use wire_read::parts::{Event, Message};
use wire_write::answer::Answer;

// A message that passed its checks.
fn take_message(mem: &mut Memory<'_>, out: &mut [u8], from: u8, message: Message<'_>) -> Answer
    requires here { from < servers_in mem.old }
    requires passed { PassedMessage (limits_of mem.old) message }
    requires readable { readable (comes from (message_of message)) ≡ true }
    requires taken { turned (limits_of mem.old) (state_of mem.old) (comes from (message_of message)) ≡ 0 }
    requires room { RoomFor mem.old (comes from (message_of message)) (length out.old) }
    ensures { Answered mem.old out.old mem.new out.new
        (comes from (message_of message.entry)) result }
{
    match message {
        Message::AskVote(term, last, of) => on_ask(mem, out, from, term, last, of),
        Message::Vote(term, granted) => on_vote(mem, out, from, term, granted),
        Message::Append(term, before, before_term, commit, entries) => {
            on_append(mem, out, from, term, before, before_term, commit, entries)
        }
        Message::Appended(term, index, ok) => on_appended(mem, out, from, term, index, ok),
    }
}

// An event that passed its checks: only the state can refuse it.
fn take(mem: &mut Memory<'_>, out: &mut [u8], event: Event<'_>) -> Answer
    requires checked { Checked (limits_of mem.old) event (Ok event) }
    requires readable { readable (means event) ≡ true }
    requires room { RoomFor mem.old (means event) (length out.old) }
    ensures { Answered mem.old out.old mem.new out.new
        (means event.entry) result }
{
    match event {
        Event::Timeout => on_timeout(mem, out),
        Event::Request(client, id, command) => on_request(mem, out, client, id, command),
        Event::Comes(from, message) => take_message(mem, out, from, message),
        Event::Restart => unreachable(),
        Event::Garbled(_) => unreachable(),
    }
}

// Read, checked, and taken or refused.
pub fn act(mem: &mut Memory<'_>, b: &[u8], out: &mut [u8]) -> Answer
    requires readable { readable (read_event b.now) ≡ true }
    requires room { RoomFor mem.old (read_event b.now) (length out.old) }
    requires enough { 10 ≤ length out.old }
    ensures answered { Answered mem.old out.old mem.new out.new (read_event b.now) result }
    ensures same { mem.new.words.ghost_name ≡ mem.old.words.ghost_name }
{
    let event = read_event(b);
    let l = mem.limits();
    match check(l, event) {
        Ok(passed) => take(mem, out, passed),
        Err(refusal) => refuse(out, refusal),
    }
}
