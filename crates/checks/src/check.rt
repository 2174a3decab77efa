// THE CHECKS of an event, in the order of the refusals: what no state is needed for.
ghost use Rattle.std.specs.Prelude.{◌≡◌, true, not, ◌&&◌, ◌==◌, nat_le, nat_lt};
ghost use Rattle.std.specs.Bool.{then_some};
ghost use Rattle.servers.specs.Opened.{limits_of};
ghost use Rattle.servers.specs.Server.{last_of_all};
ghost use Rattle.checks.specs.Outcome.{Checked, decided, ordered};
ghost use Rattle.checks.specs.Refusals.{can_do};
ghost use Rattle.checks.specs.Steps.{message_checked};

use crate::append::check_append;
use crate::entry::brief_command;
use crate::fields::{another, can_restart, client_there, index_there, server_there, term_there};
use crate::refusal::Refusal;
use servers::limits::Limits;
use wire_read::parts::{Command, Event, Message};

fn check_ask(l: Limits, term: u64, index: u64, last_term: u64) -> Result<Message<'static>, Refusal>
    ensures { result ≡ message_checked l (Message.AskVote term index last_term) }
{
    let Some(term) = term_there(term) else {
        return Err(Refusal::OutOfRange);
    };
    let Some(index) = index_there(l, index) else {
        return Err(Refusal::OutOfRange);
    };
    let Some(last_term) = term_there(last_term) else {
        return Err(Refusal::OutOfRange);
    };
    Ok(Message::AskVote(term, index, last_term))
}

fn check_vote(term: u64, granted: bool) -> Result<Message<'static>, Refusal>
    ensures { result ≡ ordered (nat_le term last_of_all) true (Message.Vote term granted) }
{
    let Some(term) = term_there(term) else {
        return Err(Refusal::OutOfRange);
    };
    Ok(Message::Vote(term, granted))
}

fn check_appended(l: Limits, term: u64, index: u64, ok: bool) -> Result<Message<'static>, Refusal>
    ensures { result ≡ message_checked l (Message.Appended term index ok) }
{
    let Some(term) = term_there(term) else {
        return Err(Refusal::OutOfRange);
    };
    let Some(index) = index_there(l, index) else {
        return Err(Refusal::OutOfRange);
    };
    Ok(Message::Appended(term, index, ok))
}

fn check_message(l: Limits, message: Message<'_>) -> Result<Message<'_>, Refusal>
    ensures { result ≡ message_checked l message.entry }
{
    match message {
        Message::AskVote(term, index, last_term) => check_ask(l, term, index, last_term),
        Message::Vote(term, granted) => check_vote(term, granted),
        Message::Append(term, before, before_term, commit, entries) => {
            check_append(l, term, before, before_term, commit, entries)
        }
        Message::Appended(term, index, ok) => check_appended(l, term, index, ok),
    }
}

fn check_request(
    l: Limits,
    client: u64,
    id: u64,
    command: Command<'_>,
) -> Result<Event<'_>, Refusal>
    ensures { result ≡ decided (limits_of can_do l) (Event.Request client id command.entry) }
{
    let Some(client) = client_there(l, client) else {
        return Err(Refusal::OutOfRange);
    };
    let Some(command) = brief_command(command) else {
        return Err(Refusal::OutOfRange);
    };
    Ok(Event::Request(client, id, command))
}

fn check_sender(l: Limits, from: u8) -> Option<u8>
    ensures { result ≡ then_some (nat_lt from l.servers && not (from == l.me)) from }
{
    let from = server_there(l, from)?;
    another(l, from)
}

fn check_comes(l: Limits, from: u8, message: Message<'_>) -> Result<Event<'_>, Refusal>
    ensures { result ≡ decided (limits_of can_do l) (Event.Comes from message.entry) }
{
    let Some(from) = check_sender(l, from) else {
        return Err(Refusal::OutOfRange);
    };
    let message = check_message(l, message)?;
    Ok(Event::Comes(from, message))
}

fn check_restart() -> Result<Event<'static>, Refusal>
    ensures { result ≡ ordered (can_do 3) true Event.Restart }
{
    if !can_restart() {
        return Err(Refusal::OutOfRange);
    }
    Ok(Event::Restart)
}

// The event, if nothing but the state could refuse it, or the first refusal.
pub fn check(l: Limits, event: Event<'_>) -> Result<Event<'_>, Refusal>
    ensures { Checked (limits_of can_do l) event.entry result }
{
    match event {
        Event::Timeout => Ok(Event::Timeout),
        Event::Request(client, id, command) => check_request(l, client, id, command),
        Event::Comes(from, message) => check_comes(l, from, message),
        Event::Restart => check_restart(),
        Event::Garbled(place) => Err(Refusal::NoEvent(place as u64)),
    }
}
