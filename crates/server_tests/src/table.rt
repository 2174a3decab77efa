// THE WORKED TABLE: three servers, two clients, room for three, row by row in the order of the world. A letter that comes is taken
// from the bytes of the answer that it was sent in.
ghost use Rattle.server_tests.specs.Live.{Live};

use crate::harness::{WORDS, has, open_server, take};
use crate::notation::bytes;
use std::alloc::{AllocError, Global};
use std::process::Abort;
use std::test::Fail;
use wire_read::read::read_text;

// What comes: an event, or the letter to this server in the answer of an earlier row.
#[derive(Clone, Copy)]
enum Comes {
    Event(&'static str),
    Letter(usize),
}

use Comes::{Event, Letter};

// At which server, what comes, and its answer.
static TABLE: [(u8, Comes, &str); 17] = [
    // time is up at 0: it asks 1 and 2 for votes, in term 1, with last entry 0 of term 0
    (
        0,
        Event("0,"),
        "2, 0# 2# 1, 25# 0, 1# 0# 0# 2, 25# 0, 1# 0# 0#",
    ),
    // client 0, number 1: put a x; 0 doesn't lead
    (0, Event("1, 0# 1# 1, 1#a 1#x"), "1,"),
    // 1 is asked, and votes: term 1, yes
    (1, Letter(0), "2, 0# 1# 0, 10# 1, 1# 1,"),
    // the vote comes: 0 leads, and nothing is told or sent
    (0, Letter(2), "2, 0# 0#"),
    // client 0, number 1: put a x; to 1 and 2 after 0 of term 0, commit index 0, entry 1:1
    (
        0,
        Event("1, 0# 1# 1, 1#a 1#x"),
        "2, 0# 2# 1, 93# 2, 1# 0# 0# 0# 1# 0, 0# 1# 1# 1# 1, 1#a 1#x 2, 93# 2, 1# 0# 0# 0# 1# 0, 0# 1# 1# 1# 1, 1#a 1#x",
    ),
    // 1 takes it: term 1, up to 1, yes
    (1, Letter(4), "2, 0# 1# 0, 18# 3, 1# 1# 1,"),
    // entry 1 is committed: client 0 is told of number 1, now x, before none
    (0, Letter(5), "2, 1# 0# 1# 1, 1#x 0, 0#"),
    // time is up at 0: to 1 after 1 of term 1, commit index 1, none; to 2 after 0, entry 1:1
    (
        0,
        Event("0,"),
        "2, 0# 2# 1, 41# 2, 1# 1# 1# 1# 0# 2, 93# 2, 1# 0# 0# 1# 1# 0, 0# 1# 1# 1# 1, 1#a 1#x",
    ),
    // 2 takes it: term 1, up to 1, yes
    (2, Letter(7), "2, 0# 1# 0, 18# 3, 1# 1# 1,"),
    // client 1, number 1: swap a, x for y; to 1 and 2 after 1 of term 1, commit index 1, entry 2:1
    (
        0,
        Event("1, 1# 1# 3, 1#a 1, 1#x 1#y"),
        "2, 0# 2# 1, 103# 2, 1# 1# 1# 1# 1# 0, 1# 1# 2# 1# 3, 1#a 1, 1#x 1#y 2, 103# 2, 1# 1# 1# 1# 1# 0, 1# 1# 2# 1# 3, 1#a 1, 1#x 1#y",
    ),
    // 2 takes it: term 1, up to 2, yes
    (2, Letter(9), "2, 0# 1# 0, 18# 3, 1# 2# 1,"),
    // entry 2 is committed: client 1 is told of number 1, now y, before x
    (0, Letter(10), "2, 1# 1# 1# 1, 1#y 1, 1#x 0#"),
    // client 0, number 1 again; to 1 after 1, entries 3:1 and 2:1; to 2 after 2, entry 3:1; commit index 2
    (
        0,
        Event("1, 0# 1# 1, 1#a 1#x"),
        "2, 0# 2# 1, 155# 2, 1# 1# 1# 2# 2# 0, 0# 1# 3# 1# 1, 1#a 1#x 0, 1# 1# 2# 1# 3, 1#a 1, 1#x 1#y 2, 93# 2, 1# 2# 1# 2# 1# 0, 0# 1# 3# 1# 1, 1#a 1#x",
    ),
    // 2 takes it: term 1, up to 3, yes
    (2, Letter(12), "2, 0# 1# 0, 18# 3, 1# 3# 1,"),
    // entry 3 is committed, and not done again: client 0 is told the same of number 1, now x, before none
    (0, Letter(13), "2, 1# 0# 1# 1, 1#x 0, 0#"),
    // client 0, number 2: get a; the log is full
    (0, Event("1, 0# 2# 0, 1#a"), "0, 4, 0#"),
    // time is up at 2: it asks 0 and 1 for votes, in term 2, with last entry 3 of term 1
    (
        2,
        Event("0,"),
        "2, 0# 2# 0, 25# 0, 2# 3# 1# 1, 25# 0, 2# 3# 1#",
    ),
];

// Where letters begin in an answer that tells nothing.
const LETTERS: usize = 17;

// The message in the letter to a server.
fn letter(answer: &[u8], to: u8) -> Option<&[u8]> {
    let mut rest = answer.get(LETTERS..)?;
    for _ in 0..answer.len() {
        let (receiver, after) = rest.split_first()?;
        let (message, next) = read_text(after).ok()?;
        if *receiver == to {
            return Some(message);
        }
        rest = next;
    }
    None
}

// The bytes of what comes.
fn event(heap: Global, answers: &[Vec<u8>], at: u8, comes: Comes) -> Result<Vec<u8>, Fail> {
    match comes {
        Event(line) => Ok(bytes(heap, line)?),
        Letter(row) => {
            let sent = answers.get(row).ok_or("no such row")?;
            let message = letter(sent, at).ok_or("no such letter")?;
            let (sender, _, _) = TABLE[row % 17];
            let mut b = vec![in heap; 2, sender]?;
            b.extend_from_slice(message)?;
            Ok(b)
        }
    }
}

// The answer of the server that an event comes to.
fn take_at(
    heap: Global,
    at: u8,
    event: &[u8],
    zero: &mut [u64],
    one: &mut [u64],
    two: &mut [u64],
) -> Result<Vec<u8>, AllocError>
    requires live { Live zero.old × Live one.old × Live two.old }
    ensures live { Live zero.new × Live one.new × Live two.new }
{
    match at {
        0 => take(heap, zero, event),
        1 => take(heap, one, event),
        _ => take(heap, two, event),
    }
}

// Every row, and then the stores of 0 and 2.
fn play(
    rt: &impl Abort,
    heap: Global,
    zero: &mut [u64],
    one: &mut [u64],
    two: &mut [u64],
) -> Result<(), Fail>
    requires live { Live zero.old × Live one.old × Live two.old }
{
    let mut answers = Vec::new(heap);
    for (at, comes, expected) in TABLE {
        let event = event(heap, &answers, at, comes)?;
        let answer = take_at(heap, at, &event, zero, one, two)?;
        assert_eq!(rt;
            answer.as_slice(),
            bytes(heap, expected)?.as_slice(),
            "{}",
            answers.len()
        );
        answers.push(answer)?;
    }
    assert!(rt; has(zero, b"a", b"y"));
    assert!(rt; has(two, b"a", b"y"));
    Ok(())
}

#[test]
fn row_by_row(rt: HostRuntime) -> Result<(), Fail> {
    let (mut zero, mut one, mut two) = ([0; WORDS], [0; WORDS], [0; WORDS]);
    open_server(&mut zero, 0)?;
    open_server(&mut one, 1)?;
    open_server(&mut two, 2)?;
    play(&rt, rt.alloc(), &mut zero, &mut one, &mut two)
}
