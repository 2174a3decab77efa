// The events that write the log, each from its first step to its answer.
ghost use Rattle.std.specs.Prelude.{◌≡◌, ◌+◌, ◌*◌, ◌<◌, ◌≤◌, true, false, ◌&&◌, length, ◌==◌, nat_le};
ghost use Rattle.servers.specs.Server.{request, comes, append, turned, finished, dues, not_leader};
ghost use Rattle.servers.specs.Promise.{readable};
ghost use Rattle.wire.specs.Write.{write_answer};
ghost use Rattle.wire_write.specs.Answers.{answer_of};
ghost use Rattle.wire_read.specs.Means.{command_of, entries_of};
ghost use Rattle.state.specs.Memory.{Turns, limits_of, region_in, room_in, state_of};
ghost use Rattle.memory.specs.Program.{region_all};
ghost use Rattle.checks.specs.Refusals.{by_state};
ghost use Rattle.server.specs.Answered.{Answered, Begins, RoomFor};

use crate::finish::finish;
use crate::first::First;
use crate::refuse::refuse;
use apply::all::apply_all;
use checks::refusal::Refusal;
use entries::append::append;
use entries::request::request;
use state::words::Memory;
use wire_read::parts::{Command, Entries};
use wire_write::answer::Answer;
use wire_write::writer::Writer;

// Whether the log of a leader has no room for an entry more.
fn is_full(mem: &Memory<'_>) -> bool
    ensures { result ≡ (((state_of mem.now).kind == 2)
        && nat_le (room_in mem.now) (length (state_of mem.now).log)) }
{
    let leads = mem.is_leader();
    let room = mem.limits().room;
    let len = mem.last_index();
    leads && room <= len
}

// Who doesn't lead says so, and applies what was committed.
fn decline(mem: &mut Memory<'_>, out: &mut [u8]) -> Answer
    requires room { 17 + 546 * room_in mem.old ≤ length out.old }
    ensures state { Turns mem.old mem.new (finished (state_of mem.old))
        (region_all (state_of mem.old) (dues (state_of mem.old)) (region_in mem.old)) }
    ensures answer { result ≡ answer_of not_leader }
    ensures bytes { Begins (write_answer not_leader) out.old out.new }
{
    let mut to = Writer { out, at: 9 };
    apply_all(mem, &mut to);
    to.at = 0;
    to.not_leader();
    Answer::NotLeader
}

// A client asks a leader.
fn take_request(
    mem: &mut Memory<'_>,
    out: &mut [u8],
    client: u64,
    id: u64,
    command: Command<'_>,
) -> Answer
    requires leads { ((state_of mem.old).kind == 2) ≡ true }
    requires readable { readable (request client id (command_of command)) ≡ true }
    requires taken { turned (limits_of mem.old) (state_of mem.old) (request client id (command_of command)) ≡ 0 }
    requires room { RoomFor mem.old (request client id (command_of command)) (length out.old) }
    ensures { Answered mem.old out.old mem.new out.new
        (request client id (command_of command.entry)) result }
{
    request(mem, client, id, command);
    finish(mem, out, First::Nothing)
}

// A client asks: a full log refuses, and who doesn't lead says so.
pub fn on_request(
    mem: &mut Memory<'_>,
    out: &mut [u8],
    client: u64,
    id: u64,
    command: Command<'_>,
) -> Answer
    requires readable { readable (request client id (command_of command)) ≡ true }
    requires passed { turned (limits_of mem.old) (state_of mem.old) (request client id (command_of command))
        ≡ by_state (limits_of mem.old) (state_of mem.old) (request client id (command_of command)) }
    requires room { RoomFor mem.old (request client id (command_of command)) (length out.old) }
    ensures { Answered mem.old out.old mem.new out.new
        (request client id (command_of command.entry)) result }
{
    let full = is_full(mem);
    if full {
        return refuse(out, Refusal::LogFull);
    }
    let leads = mem.is_leader();
    if !leads {
        return decline(mem, out);
    }
    take_request(mem, out, client, id, command)
}

// AppendEntries: the reply goes to who sent it.
pub fn on_append(
    mem: &mut Memory<'_>,
    out: &mut [u8],
    from: u8,
    term: u64,
    before: u64,
    before_term: u64,
    commit: u64,
    entries: Entries<'_>,
) -> Answer
    requires readable { readable (comes from (append term before before_term (entries_of entries) commit)) ≡ true }
    requires taken { turned (limits_of mem.old) (state_of mem.old)
        (comes from (append term before before_term (entries_of entries) commit)) ≡ 0 }
    requires room { RoomFor mem.old (comes from (append term before before_term (entries_of entries) commit))
        (length out.old) }
    ensures { Answered mem.old out.old mem.new out.new
        (comes from (append term before before_term (entries_of entries.entry) commit)) result }
{
    let reply = append(mem, from as u64, term, before, before_term, commit, entries);
    finish(
        mem,
        out,
        First::Reply(from, reply.term, reply.index, reply.ok),
    )
}
