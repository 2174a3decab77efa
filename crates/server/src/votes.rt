// The events of an election, each from its first step to its answer.
ghost use Rattle.std.specs.Prelude.{◌≡◌, ◌<◌, ◌≤◌, length};
ghost use Rattle.servers.specs.Store.{pick};
ghost use Rattle.servers.specs.Server.{timeout, comes, ask_vote, vote, appended, turned, last_of_all};
ghost use Rattle.state.specs.Memory.{limits_of, room_in, servers_in, state_of};
ghost use Rattle.server.specs.Answered.{Answered, RoomFor};

use crate::finish::finish;
use crate::first::First;
use crate::refuse::refuse;
use checks::refusal::Refusal;
use election::ask_vote::asked_for_vote;
use election::timeout::{may_go_on, time_is_up};
use election::vote::vote_comes;
use replication::appended::appended_comes;
use state::words::Memory;
use wire_write::answer::Answer;

// Who leads asks for no votes.
fn asks_unless(leads: bool) -> First
    ensures { result ≡ pick leads First.Nothing First.Asks }
{
    if leads {
        return First::Nothing;
    }
    First::Asks
}

// Time is up, and there is a term to go to.
fn go_on(mem: &mut Memory<'_>, out: &mut [u8]) -> Answer
    requires taken { turned (limits_of mem.old) (state_of mem.old) timeout ≡ 0 }
    requires room { RoomFor mem.old timeout (length out.old) }
    ensures { Answered mem.old out.old mem.new out.new timeout result }
{
    let leads = time_is_up(mem);
    let first = asks_unless(leads);
    finish(mem, out, first)
}

pub fn on_timeout(mem: &mut Memory<'_>, out: &mut [u8]) -> Answer
    requires room { RoomFor mem.old timeout (length out.old) }
    ensures { Answered mem.old out.old mem.new out.new timeout result }
{
    let free = may_go_on(mem.view());
    if !free {
        return refuse(out, Refusal::LastTerm);
    }
    go_on(mem, out)
}

// A server asks for a vote: the reply goes to it alone.
pub fn on_ask(
    mem: &mut Memory<'_>,
    out: &mut [u8],
    from: u8,
    term: u64,
    last: u64,
    of: u64,
) -> Answer
    requires here { from < servers_in mem.old }
    requires low { term ≤ last_of_all }
    requires taken { turned (limits_of mem.old) (state_of mem.old) (comes from (ask_vote term last of)) ≡ 0 }
    requires room { RoomFor mem.old (comes from (ask_vote term last of)) (length out.old) }
    ensures { Answered mem.old out.old mem.new out.new
        (comes from (ask_vote term last of)) result }
{
    let reply = asked_for_vote(mem, from as u64, term, last, of);
    finish(mem, out, First::Vote(from, reply.term, reply.granted))
}

pub fn on_vote(mem: &mut Memory<'_>, out: &mut [u8], from: u8, term: u64, granted: bool) -> Answer
    requires here { from < servers_in mem.old }
    requires low { term ≤ last_of_all }
    requires taken { turned (limits_of mem.old) (state_of mem.old) (comes from (vote term granted)) ≡ 0 }
    requires room { RoomFor mem.old (comes from (vote term granted)) (length out.old) }
    ensures { Answered mem.old out.old mem.new out.new
        (comes from (vote term granted)) result }
{
    vote_comes(mem, from as u64, term, granted);
    finish(mem, out, First::Nothing)
}

// What another server says of entries.
pub fn on_appended(
    mem: &mut Memory<'_>,
    out: &mut [u8],
    from: u8,
    term: u64,
    index: u64,
    ok: bool,
) -> Answer
    requires here { from < servers_in mem.old }
    requires low { term ≤ last_of_all }
    requires within { index ≤ room_in mem.old }
    requires taken { turned (limits_of mem.old) (state_of mem.old) (comes from (appended term index ok)) ≡ 0 }
    requires room { RoomFor mem.old (comes from (appended term index ok)) (length out.old) }
    ensures { Answered mem.old out.old mem.new out.new
        (comes from (appended term index ok)) result }
{
    appended_comes(mem, from as usize, term, index, ok);
    finish(mem, out, First::Nothing)
}
