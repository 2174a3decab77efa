// The tables. Bytes are written out as they go over the wire: numbers eight bytes, the lowest first.
use crate::{begins, place};
use std::test::Fail;
use wire_read::event::read_event;
use wire_read::parts::{Event, Message};
use wire_write::writer::Writer;

const TIMEOUT: &[u8; 1] = b"\0";

const RESTART: &[u8; 1] = b"\x03";

const GET: &[u8; 29] =
    b"\x01\x07\0\0\0\0\0\0\0\xff\xff\xff\xff\xff\xff\xff\xff\0\x03\0\0\0\0\0\0\0hut";

const PUT: &[u8; 41] =
    b"\x01\x07\0\0\0\0\0\0\0\xff\xff\xff\xff\xff\xff\xff\xff\x01\x03\0\0\0\0\0\0\0hut\x04\0\0\0\0\0\0\0\
    full";

const REMOVE: &[u8; 26] =
    b"\x01\x07\0\0\0\0\0\0\0\xff\xff\xff\xff\xff\xff\xff\xff\x02\0\0\0\0\0\0\0\0";

const SWAP_NONE: &[u8; 37] =
    b"\x01\x07\0\0\0\0\0\0\0\xff\xff\xff\xff\xff\xff\xff\xff\x03\x01\0\0\0\0\0\0\0a\0\x01\0\0\0\0\0\0\0b";

const SWAP_SOME: &[u8; 45] =
    b"\x01\x07\0\0\0\0\0\0\0\xff\xff\xff\xff\xff\xff\xff\xff\x03\x01\0\0\0\0\0\0\0a\x01\x01\0\0\0\0\0\0\0\
    \xff\0\0\0\0\0\0\0\0";

const DROP_IF: &[u8; 36] =
    b"\x01\x07\0\0\0\0\0\0\0\xff\xff\xff\xff\xff\xff\xff\xff\x04\x01\0\0\0\0\0\0\0a\x01\0\0\0\0\0\0\0b";

const ASK_VOTE: &[u8; 27] = b"\x02\x01\0\x05\0\0\0\0\0\0\0\x06\0\0\0\0\0\0\0\x07\0\0\0\0\0\0\0";

const VOTE: &[u8; 12] = b"\x02\x04\x01\x09\0\0\0\0\0\0\0\x01";

const APPENDED: &[u8; 20] = b"\x02\0\x03\x09\0\0\0\0\0\0\0\x08\0\0\0\0\0\0\0\0";

const APPEND_NONE: &[u8; 43] =
    b"\x02\x03\x02\x04\0\0\0\0\0\0\0\0\0\0\0\0\0\0\0\0\0\0\0\0\0\0\0\0\0\0\0\0\0\0\0\0\0\0\0\0\0\0\0";

const APPEND_TWO: &[u8; 149] =
    b"\x02\x03\x02\x04\0\0\0\0\0\0\0\x01\0\0\0\0\0\0\0\x02\0\0\0\0\0\0\0\x03\0\0\0\0\0\0\0\
    \x02\0\0\0\0\0\0\0\x01\x02\0\0\0\0\0\0\0\x03\0\0\0\0\0\0\0\x03\0\0\0\0\0\0\0\x04\0\0\0\0\0\0\0\x03\
    \x01\0\0\0\0\0\0\0a\x01\x01\0\0\0\0\0\0\0\xff\0\0\0\0\0\0\0\0\x04\x05\0\0\0\0\0\0\0\
    \x06\0\0\0\0\0\0\0\x02\0\0\0\0\0\0\0\x04\0\0\0\0\0\0\0\0\x03\0\0\0\0\0\0\0hut";

#[test]
fn beginnings_are_refused_at_their_end(rt: HostRuntime) {
    assert!(rt; begins(TIMEOUT), "timeout");
    assert!(rt; begins(RESTART), "restart");
    assert!(rt; begins(GET), "get");
    assert!(rt; begins(PUT), "put");
    assert!(rt; begins(REMOVE), "remove");
    assert!(rt; begins(SWAP_NONE), "swap_none");
    assert!(rt; begins(SWAP_SOME), "swap_some");
    assert!(rt; begins(DROP_IF), "drop_if");
    assert!(rt; begins(ASK_VOTE), "ask_vote");
    assert!(rt; begins(VOTE), "vote");
    assert!(rt; begins(APPENDED), "appended");
    assert!(rt; begins(APPEND_NONE), "append_none");
    assert!(rt; begins(APPEND_TWO), "append_two");
}

// A byte too many is refused at its place.
#[test]
fn nothing_stands_after_an_event(rt: HostRuntime) {
    assert_eq!(rt; place(&[0, 0]), Some(1));
    assert_eq!(rt; place(&[3, 0]), Some(1));
    let mut more = [0u8; 13];
    more[0..12].copy_from_slice(VOTE);
    assert_eq!(rt; place(&more), Some(12), "vote");
    let mut more = [0u8; 44];
    more[0..43].copy_from_slice(APPEND_NONE);
    assert_eq!(rt; place(&more), Some(43), "append");
}

// What a vote is refused at with another byte at a place.
fn expected(at: usize, x: u8) -> Option<usize> {
    match at {
        0 => match x {
            0 => Some(1),
            1 => Some(12),
            2 => None,
            3 => Some(1),
            _ => Some(0),
        },
        2 => match x {
            1 => None,
            0 => Some(12),
            2 => Some(12),
            3 => Some(12),
            _ => Some(2),
        },
        11 => { if x > 1 { Some(11) } else { None } }
        _ => None,
    }
}

#[test]
fn each_byte_of_a_vote_changed(rt: HostRuntime) {
    for at in 0..12 {
        for x in 0..=255u8 {
            let mut b = *VOTE;
            b[at] = x;
            assert_eq!(rt; place(&b), expected(at, x));
        }
    }
}

// Counts and lengths that are larger than the bytes can be.
#[test]
fn hostile_counts(rt: HostRuntime) {
    let mut b = *APPEND_NONE;
    b[35..43].fill(255);
    assert_eq!(rt; place(&b), Some(43), "2^64 - 1 entries");
    let mut b = *GET;
    b[18..26].fill(255);
    assert_eq!(rt; place(&b), Some(29), "a name of 2^64 - 1 bytes");
}

// Entries come in the order of the bytes, the last first.
#[test]
fn entries_in_order(rt: HostRuntime) -> Result<(), Fail> {
    let Event::Comes(_, Message::Append(_, _, _, commit, mut es)) = read_event(APPEND_TWO) else {
        return Err(Fail::new("no append"));
    };
    assert_eq!(rt; commit, 3);
    assert!(rt; es.count == 2);
    let last = es.next().ok_or("no last entry")?;
    let first = es.next().ok_or("no first entry")?;
    assert_eq!(rt; last.index, 3);
    assert_eq!(rt; first.index, 2);
    assert_eq!(rt; es.count, 0);
    Ok(())
}

// What is written is read.
#[test]
fn written_messages_are_read(rt: HostRuntime) {
    let mut b = [7u8; 27];
    let mut to = Writer { out: &mut b, at: 0 };
    to.byte(2);
    to.byte(1);
    to.ask_vote(5, 6, 7);
    assert_eq!(rt; to.at, 27);
    assert_eq!(rt; b, *ASK_VOTE);
    let mut b = [7u8; 12];
    let mut m = [0u8; 10];
    Writer { out: &mut m, at: 0 }.vote(9, true);
    Writer { out: &mut b, at: 0 }.comes(4, &m);
    assert_eq!(rt; b, *VOTE);
    let mut m = [0u8; 18];
    Writer { out: &mut m, at: 0 }.appended(9, 8, false);
    let mut b = [7u8; 20];
    Writer { out: &mut b, at: 0 }.comes(0, &m);
    assert_eq!(rt; b, *APPENDED);
    let mut m = [0u8; 41];
    Writer { out: &mut m, at: 0 }.append_head(4, 0, 0, 0, 0);
    let mut b = [7u8; 43];
    Writer { out: &mut b, at: 0 }.comes(3, &m);
    assert_eq!(rt; b, *APPEND_NONE);
}
