// ONE HAPPENING: an event comes to a server of the group, and what it was and what was answered are kept.
ghost use Rattle.std.specs.Prelude.{◌≡◌, ℕ, ◌+◌, ◌^◌, ◌<◌, ◌≤◌, List, length};
ghost use Rattle.wire.specs.Read.{read_event};
ghost use Rattle.group.specs.Journals.{world_in};
ghost use Rattle.group.specs.Letters.{message_coming};
ghost use Rattle.group.specs.Parts.{CanHappen};
ghost use Rattle.group.specs.Playing.{Playing, RoomOrWhy, TurnedOn, Outcome, from_server};

use crate::journal::{HEAD, put_came, put_coming};
use server::step::step;
use wire_read::event::read_event;
use wire_read::parts::Event;

// What a group is opened with; how many words each server has, and how many bytes its longest answer.
// That it is sized is no ghost field, since a happening asks less of it than an opening does.
#[derive(Clone, Copy, PartialEq, Eq, Debug)]
pub struct Group {
    pub servers: u64,
    pub clients: u64,
    pub room: u64,
    pub words: usize,
    pub longest: usize,
}

// How much is kept: happenings, and their bytes in the two journals.
#[derive(Clone, Copy, PartialEq, Eq, Debug)]
pub struct Kept {
    pub happenings: usize,
    pub events: usize,
    pub answers: usize,
}

// Why nothing happens: there is no such server, it is a message that this group's servers didn't send, or a journal is full.
#[derive(Clone, Copy, PartialEq, Eq, Debug)]
pub enum Denied {
    Server,
    Message,
    Events,
    Answers,
}

// That the journals have room for an event of so many bytes and for its answer.
fn room_for(g: Group, kept: Kept, events: &[u8], answers: &[u8], len: usize) -> Result<(), Denied>
    requires events { kept.events ≤ length events.now }
    requires answers { kept.answers ≤ length answers.now }
    requires size { len + 9 < 2 ^ 64 }
    ensures { RoomOrWhy g kept events.now answers.now len result }
{
    if events.len() - kept.events < HEAD + len {
        return Err(Denied::Events);
    }
    if answers.len() - kept.answers < g.longest {
        return Err(Denied::Answers);
    }
    Ok(())
}

// A step of one server in its part of the memory, with its answer at the end of the others, once its event is in the journal of events
// up to `end`. What is kept then.
fn turn(
    g: Group,
    kept: Kept,
    mems: &mut [u64],
    answers: &mut [u8],
    server: u8,
    event: &[u8],
    end: usize,
) -> Kept
    requires playing { (xs : List ℕ) × Playing g kept mems.old xs answers.old }
    requires there { server < g.servers }
    requires room { kept.answers + g.longest ≤ length answers.old }
    requires past { kept.events < end }
    ensures { TurnedOn g kept server end event.now mems.old answers.old
        mems.new answers.new result }
{
    let start = server as usize * g.words;
    let answer = step(
        &mut mems[start..start + g.words],
        event,
        &mut answers[kept.answers..],
    );
    let len = answer.len();
    Kept {
        happenings: kept.happenings + 1,
        events: end,
        answers: kept.answers + len,
    }
}

// An event happens at a server of the group, unless there is no room to keep it: then nothing changes, and it says what is full.
pub fn happen(
    g: Group,
    kept: Kept,
    mems: &mut [u64],
    events: &mut [u8],
    answers: &mut [u8],
    server: u8,
    event: &[u8],
) -> Result<Kept, Denied>
    requires playing { Playing g kept mems.old events.old answers.old }
    requires there { server < g.servers }
    requires can { CanHappen (world_in kept.happenings events.old answers.old) server (read_event event.now) }
    ensures { Outcome g kept server event.now mems.old events.old answers.old
        mems.new events.new answers.new result }
{
    room_for(g, kept, events, answers, event.len())?;
    let end = put_came(events, kept.events, server, event);
    Ok(turn(g, kept, mems, answers, server, event, end))
}

// Whether bytes are read as a message from a server.
fn is_message(event: &[u8]) -> bool
    ensures { result ≡ from_server (read_event event.now) }
{
    matches!(read_event(event), Event::Comes(..))
}

// What comes from outside: a timer ends, a client asks, a server restarts, or bytes come that are no event. A message is denied.
pub fn happen_outside(
    g: Group,
    kept: Kept,
    mems: &mut [u64],
    events: &mut [u8],
    answers: &mut [u8],
    server: u8,
    event: &[u8],
) -> Result<Kept, Denied>
    requires playing { Playing g kept mems.old events.old answers.old }
    ensures { Outcome g kept server event.now mems.old events.old answers.old
        mems.new events.new answers.new result }
{
    if u64::from(server) >= g.servers {
        return Err(Denied::Server);
    }
    if is_message(event) {
        return Err(Denied::Message);
    }
    happen(g, kept, mems, events, answers, server, event)
}

// A letter comes: its message's bytes, which stand in the journal of answers, are an event at the server that it was sent to.
pub fn come(
    g: Group,
    kept: Kept,
    mems: &mut [u64],
    events: &mut [u8],
    answers: &mut [u8],
    server: u8,
    from: u8,
    start: usize,
    len: usize,
) -> Result<Kept, Denied>
    requires playing { Playing g kept mems.old events.old answers.old }
    requires there { server < g.servers }
    requires within { start + len ≤ kept.answers }
    requires can { CanHappen (world_in kept.happenings events.old answers.old) server
        (read_event (message_coming from start len answers.old)) }
    ensures { Outcome g kept server (message_coming from start len answers.old) mems.old
        events.old answers.old mems.new events.new answers.new result }
{
    room_for(g, kept, events, answers, len + 2)?;
    let end = put_coming(
        events,
        kept.events,
        server,
        from,
        &answers[start..start + len],
    );
    let event = &events[kept.events + HEAD..end];
    Ok(turn(g, kept, mems, answers, server, event, end))
}
