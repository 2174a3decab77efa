// What one line of a world says, or what was expected where it can't be read. What has been read of a line is cut off its front.
pub use crate::fault::Fault;
use crate::text::{push_hex, push_text};
use crate::words::{next, number};

// What happens; the bytes of what a client asks, and of bytes that are no event, are handed over beside it.
#[derive(Clone, Copy, PartialEq, Eq, Debug)]
pub enum Line {
    Group {
        servers: u64,
        clients: u64,
        room: u64,
    },
    Time {
        server: u64,
    },
    Ask {
        server: u64,
    },
    Come {
        letter: u64,
    },
    Restart {
        server: u64,
    },
    Bytes {
        server: u64,
    },
    Show {
        server: u64,
    },
}

// A number in the next word, and what stands after it.
fn number_in<'a>(line: &'a [u8], what: &'static str) -> Result<(u64, &'a [u8]), Fault> {
    let (word, rest) = next(line).ok_or(Fault::Expected(what))?;
    let n = number(word).ok_or(Fault::Expected(what))?;
    Ok((n, rest))
}

// That the line ends here.
fn ended(line: &[u8], said: Line) -> Result<Line, Fault> {
    match next(line) {
        None => Ok(said),
        Some(_) => Err(Fault::Expected("the end of the line")),
    }
}

// A text in the next word, as its length and its bytes at the end of `event`; what stands after it.
fn text_in<'a>(line: &'a [u8], event: &mut Vec<u8>, what: &'static str) -> Result<&'a [u8], Fault> {
    let (word, rest) = next(line).ok_or(Fault::Expected(what))?;
    let mut bytes = Vec::new(*event.allocator());
    push_text(&mut bytes, word, what)?;
    event.extend_from_slice(&(bytes.len() as u64).to_le_bytes())?;
    event.extend_from_slice(&bytes)?;
    Ok(rest)
}

// A text or none in the next word.
fn perhaps_in<'a>(line: &'a [u8], event: &mut Vec<u8>) -> Result<&'a [u8], Fault> {
    if let Some((b"\\-", rest)) = next(line) {
        event.push(0)?;
        return Ok(rest);
    }
    event.push(1)?;
    text_in(
        line,
        event,
        "the text that is expected there, or \\- for none",
    )
}

// A command's number and the name that it is about.
fn named_in<'a>(line: &'a [u8], tag: u8, event: &mut Vec<u8>) -> Result<&'a [u8], Fault> {
    event.push(tag)?;
    text_in(line, event, "a name")
}

// A command, as its bytes at the end of `event`; what stands after it.
fn command_in<'a>(line: &'a [u8], event: &mut Vec<u8>) -> Result<&'a [u8], Fault> {
    let expected = Fault::Expected("get, put, remove, swap or drop-if");
    let (word, rest) = next(line).ok_or(expected)?;
    match word {
        b"get" => named_in(rest, 0, event),
        b"put" => text_in(named_in(rest, 1, event)?, event, "a text"),
        b"remove" => named_in(rest, 2, event),
        b"swap" => {
            let rest = named_in(rest, 3, event)?;
            text_in(perhaps_in(rest, event)?, event, "a text")
        }
        b"drop-if" => text_in(named_in(rest, 4, event)?, event, "a text"),
        _ => Err(expected),
    }
}

// What a client asks: client, number and command, as an event's bytes.
fn ask_in(line: &[u8], server: u64, event: &mut Vec<u8>) -> Result<Line, Fault> {
    let (client, rest) = number_in(line, "a client's number")?;
    let (id, rest) = number_in(rest, "the number of what it asks")?;
    event.push(1)?;
    event.extend_from_slice(&client.to_le_bytes())?;
    event.extend_from_slice(&id.to_le_bytes())?;
    ended(command_in(rest, event)?, Line::Ask { server })
}

// Bytes as they are; there may be none.
fn bytes_in(line: &[u8], server: u64, event: &mut Vec<u8>) -> Result<Line, Fault> {
    let (digits, rest) = next(line).unwrap_or((&[], &[]));
    push_hex(event, digits)?;
    ended(rest, Line::Bytes { server })
}

// What happens at a server.
fn at_server(line: &[u8], server: u64, event: &mut Vec<u8>) -> Result<Line, Fault> {
    let expected = Fault::Expected("time, ask, restart or bytes");
    let (word, rest) = next(line).ok_or(expected)?;
    match word {
        b"time" => ended(rest, Line::Time { server }),
        b"restart" => ended(rest, Line::Restart { server }),
        b"ask" => ask_in(rest, server, event),
        b"bytes" => bytes_in(rest, server, event),
        _ => Err(expected),
    }
}

fn group_in(line: &[u8]) -> Result<Line, Fault> {
    let (servers, rest) = number_in(line, "the number of servers")?;
    let (clients, rest) = number_in(rest, "the number of clients")?;
    let (room, rest) = number_in(rest, "the room of a log")?;
    ended(
        rest,
        Line::Group {
            servers,
            clients,
            room,
        },
    )
}

fn come_in(line: &[u8]) -> Result<Line, Fault> {
    let (letter, rest) = number_in(line, "a letter's number")?;
    ended(rest, Line::Come { letter })
}

fn show_in(line: &[u8]) -> Result<Line, Fault> {
    let (server, rest) = number_in(line, "a server's number")?;
    ended(rest, Line::Show { server })
}

// The line, if it says anything; `event` has what is asked, or the bytes that come, as an event's bytes.
pub fn read_line(line: &[u8], event: &mut Vec<u8>) -> Result<Option<Line>, Fault> {
    event.clear();
    let Some((word, rest)) = next(line) else {
        return Ok(None);
    };
    let said = match word {
        [b'#', ..] => return Ok(None),
        b"group" => group_in(rest)?,
        b"come" => come_in(rest)?,
        b"show" => show_in(rest)?,
        _ => {
            let (server, rest) = number_in(line, "group, come, show or a server's number")?;
            at_server(rest, server, event)?
        }
    };
    Ok(Some(said))
}
