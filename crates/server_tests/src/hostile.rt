// HOSTILE EVENTS, and those next to them that pass, one after the other: each is refused with its number and place, or done, and what
// is refused leaves every word of the memory as it was.
ghost use Rattle.server_tests.specs.Live.{Live};

use crate::harness::{WORDS, open_server, take};
use crate::notation::{bytes, row};
use std::alloc::Global;
use std::process::Abort;
use std::test::Fail;

// At a server that follows: what comes, its bytes, and the bytes of the answer.
static FOLLOWER: [&str; 62] = [
    "no event at all: = 0, 1, 0#",
    "no such event: 9, = 0, 1, 0#",
    "bytes after it: 0, 0, = 0, 1, 1#",
    "bytes after a restart: 3, 3, = 0, 1, 1#",
    "no such command: 1, 0# 1# 5, = 0, 1, 17#",
    "neither a text nor none: 1, 0# 1# 3, 1#a 2, = 0, 1, 27#",
    "a name of 2^64 - 1 bytes: 1, 0# 1# 0, 18446744073709551615#a = 0, 1, 27#",
    "a name that ends at 2^64: 1, 0# 1# 0, 18446744073709551590#a = 0, 1, 27#",
    "no such message: 2, 1, 4, = 0, 1, 2#",
    "neither true nor false: 2, 1, 1, 1# 2, = 0, 1, 11#",
    "2^64 - 1 entries, and none there: 2, 1, 2, 0# 0# 0# 0# 18446744073709551615# = 0, 1, 43#",
    "2^62 entries, and one there: 2, 1, 2, 0# 0# 0# 0# 4611686018427387904# 1, 0# 1# 1# 1# 0, 0# = 0, 1, 85#",
    "one entry more than there are: 2, 1, 2, 0# 0# 0# 0# 2# 1, 0# 1# 1# 1# 0, 0# = 0, 1, 85#",
    "one entry fewer than there are: 2, 1, 2, 0# 0# 0# 0# 0# 1, 0# 1# 1# 1# 0, 0# = 0, 1, 43#",
    "a client too many: 1, 2# 1# 0, 1#a = 0, 2, 0#",
    "a client far off: 1, 18446744073709551615# 1# 0, 1#a = 0, 2, 0#",
    "a message from itself: 2, 0, 1, 1# 1, = 0, 2, 0#",
    "from a server too many: 2, 3, 1, 1# 1, = 0, 2, 0#",
    "from a server far off: 2, 255, 1, 1# 1, = 0, 2, 0#",
    "a term after the last: 2, 1, 1, 4611686018427387905# 1, = 0, 2, 0#",
    "a term far off: 2, 1, 1, 18446744073709551615# 1, = 0, 2, 0#",
    "asked in a term after the last: 2, 1, 0, 4611686018427387905# 0# 0# = 0, 2, 0#",
    "asked with an index beyond the room: 2, 1, 0, 1# 4# 0# = 0, 2, 0#",
    "asked with an index far off: 2, 1, 0, 1# 18446744073709551615# 0# = 0, 2, 0#",
    "asked with an entry after the last term: 2, 1, 0, 1# 0# 4611686018427387905# = 0, 2, 0#",
    "a reply of a term after the last: 2, 1, 3, 4611686018427387905# 0# 1, = 0, 2, 0#",
    "a reply up to beyond the room: 2, 1, 3, 1# 4# 1, = 0, 2, 0#",
    "a reply up to far off: 2, 1, 3, 1# 18446744073709551615# 1, = 0, 2, 0#",
    "entries of a term after the last: 2, 1, 2, 4611686018427387905# 0# 0# 0# 0# = 0, 2, 0#",
    "entries of a term far off: 2, 1, 2, 18446744073709551615# 0# 0# 0# 0# = 0, 2, 0#",
    "entries after one beyond the room: 2, 1, 2, 0# 4# 0# 0# 0# = 0, 2, 0#",
    "entries after one far off: 2, 1, 2, 0# 18446744073709551615# 0# 0# 0# = 0, 2, 0#",
    "entries after one of a term after the last: 2, 1, 2, 0# 0# 4611686018427387905# 0# 0# = 0, 2, 0#",
    "committed beyond the room: 2, 1, 2, 0# 0# 0# 4# 0# = 0, 2, 0#",
    "committed far off: 2, 1, 2, 0# 0# 0# 18446744073709551615# 0# = 0, 2, 0#",
    "an entry of a server too many: 2, 1, 2, 0# 0# 0# 0# 1# 3, 0# 1# 1# 1# 0, 0# = 0, 2, 0#",
    "an entry of a client too many: 2, 1, 2, 0# 0# 0# 0# 1# 1, 2# 1# 1# 1# 0, 0# = 0, 2, 0#",
    "an entry of a client far off: 2, 1, 2, 0# 0# 0# 0# 1# 1, 18446744073709551615# 1# 1# 1# 0, 0# = 0, 2, 0#",
    "an entry of a term after the last: 2, 1, 2, 0# 0# 0# 0# 1# 1, 0# 1# 1# 4611686018427387905# 0, 0# = 0, 2, 0#",
    "an entry with a name of 65 bytes: 2, 1, 2, 0# 0# 0# 0# 1# 1, 0# 1# 1# 1# 0, 65#aaaaaaaaaaaaaaaaaaaaaaaaaaaaaaaaaaaaaaaaaaaaaaaaaaaaaaaaaaaaaaaaa = 0, 2, 0#",
    "an entry that is the second: 2, 1, 2, 0# 0# 0# 0# 1# 1, 0# 1# 2# 1# 0, 0# = 0, 3, 0#",
    "an entry with index 0: 2, 1, 2, 0# 0# 0# 0# 1# 1, 0# 1# 0# 1# 0, 0# = 0, 3, 0#",
    "an entry with an index far off: 2, 1, 2, 0# 0# 0# 0# 1# 1, 0# 1# 18446744073709551615# 1# 0, 0# = 0, 3, 0#",
    "entries with the first first: 2, 1, 2, 0# 0# 0# 0# 2# 1, 0# 1# 1# 1# 0, 0# 1, 0# 1# 2# 1# 0, 0# = 0, 3, 0#",
    "an entry twice: 2, 1, 2, 0# 0# 0# 0# 2# 1, 0# 1# 1# 1# 0, 0# 1, 0# 1# 1# 1# 0, 0# = 0, 3, 0#",
    "an entry after the room: 2, 1, 2, 0# 3# 0# 0# 1# 1, 0# 1# 4# 1# 0, 0# = 0, 3, 0#",
    "an entry more than the room: 2, 1, 2, 0# 0# 0# 0# 4# 1, 0# 1# 4# 1# 0, 0# 1, 0# 1# 3# 1# 0, 0# 1, 0# 1# 2# 1# 0, 0# 1, 0# 1# 1# 1# 0, 0# = 0, 3, 0#",
    "out of row, and a client too many in a later one: 2, 1, 2, 0# 0# 0# 0# 2# 1, 0# 1# 4# 1# 0, 0# 1, 2# 1# 1# 1# 0, 0# = 0, 2, 0#",
    "out of row, and committed beyond the room: 2, 1, 2, 0# 0# 0# 4# 1# 1, 0# 1# 2# 1# 0, 0# = 0, 2, 0#",
    "no room, and a server too many: 2, 1, 2, 0# 3# 0# 0# 1# 3, 0# 1# 4# 1# 0, 0# = 0, 2, 0#",
    "a reply up to the end of the room: 2, 1, 3, 0# 3# 1, = 2, 0# 0#",
    "asked with the last index and term: 2, 1, 0, 0# 3# 4611686018427387904# = 2, 0# 1# 1, 10# 1, 0# 1,",
    "entries after one that is not there: 2, 2, 2, 0# 3# 4611686018427387904# 0# 0# = 2, 0# 1# 2, 18# 3, 0# 0# 0,",
    "none, committed up to the end of the room: 2, 2, 2, 0# 0# 0# 3# 0# = 2, 0# 1# 2, 18# 3, 0# 0# 1,",
    "as many as there is room for, of the last term and the last number: 2, 2, 2, 0# 0# 0# 0# 3# 1, 0# 18446744073709551615# 3# 4611686018427387904# 0, 0# 1, 0# 1# 2# 4611686018427387904# 0, 0# 1, 1# 1# 1# 4611686018427387904# 0, 0# = 2, 0# 1# 2, 18# 3, 0# 3# 1,",
    "a restart, which these servers can't do: 3, = 0, 2, 0#",
    "a name of 64 bytes: 1, 1# 1# 0, 64#aaaaaaaaaaaaaaaaaaaaaaaaaaaaaaaaaaaaaaaaaaaaaaaaaaaaaaaaaaaaaaaa = 1,",
    "a name of 65 bytes: 1, 1# 1# 0, 65#aaaaaaaaaaaaaaaaaaaaaaaaaaaaaaaaaaaaaaaaaaaaaaaaaaaaaaaaaaaaaaaaa = 0, 2, 0#",
    "a client's last number: 1, 1# 18446744073709551615# 0, 0# = 1,",
    "a vote of the last term: 2, 1, 1, 4611686018427387904# 1, = 2, 0# 0#",
    "time is up in the last term: 0, = 0, 5, 0#",
    "and bytes after it: 0, 7, = 0, 1, 1#",
];

// At one that comes to lead with a full log.
static LEADER: [&str; 10] = [
    "entries fill the log: 2, 2, 2, 0# 0# 0# 0# 3# 1, 0# 1# 3# 0# 0, 0# 1, 0# 1# 2# 0# 0, 0# 1, 0# 1# 1# 0# 0, 0# = 2, 0# 1# 2, 18# 3, 0# 3# 1,",
    "time is up: 0, = 2, 0# 2# 1, 25# 0, 1# 3# 0# 2, 25# 0, 1# 3# 0#",
    "a vote, and it leads: 2, 1, 1, 1# 1, = 2, 0# 0#",
    "no room for a request: 1, 0# 1# 0, 1#a = 0, 4, 0#",
    "a client too many: 1, 2# 1# 0, 1#a = 0, 2, 0#",
    "a name of 65 bytes: 1, 0# 1# 0, 65#aaaaaaaaaaaaaaaaaaaaaaaaaaaaaaaaaaaaaaaaaaaaaaaaaaaaaaaaaaaaaaaaa = 0, 2, 0#",
    "a request cut short: 1, 0# 1# 0, 2#a = 0, 1, 27#",
    "no room for another client: 1, 1# 18446744073709551615# 2, 1#a = 0, 4, 0#",
    "a newer term, and it follows: 2, 1, 1, 2# 0, = 2, 0# 0#",
    "a request at one that follows: 1, 0# 1# 0, 1#a = 1,",
];

// Events of which no front part is an event.
static WHOLE: [&str; 6] = [
    "1, 1# 7# 3, 1#a 1, 2#xy 1#z",
    "1, 0# 7# 4, 1#a 1#x",
    "2, 1, 0, 1# 2# 1#",
    "2, 2, 1, 1# 1,",
    "2, 1, 2, 1# 1# 1# 1# 2#  1, 0# 1# 3# 1# 1, 1#a 1#x  2, 1# 1# 2# 1# 3, 1#a 0, 1#y",
    "2, 1, 3, 1# 3# 0,",
];

// Whether an event is answered so, and a refusal changes nothing.
fn answers(
    rt: &impl Abort,
    heap: Global,
    mem: &mut [u64],
    what: &str,
    event: &[u8],
    expected: &[u8],
) -> Result<(), Fail>
    requires live { Live mem.old }
    ensures live { Live mem.new }
{
    let before = Vec::from_slice(heap, mem)?;
    let answer = take(heap, mem, event)?;
    assert_eq!(rt; answer.as_slice(), expected, "{what}");
    assert!(rt; !expected.starts_with(&[0]) || &*mem == before.as_slice());
    Ok(())
}

fn all_answer(
    rt: &impl Abort,
    heap: Global,
    mem: &mut [u64],
    rows: &[&'static str],
) -> Result<(), Fail>
    requires live { Live mem.old }
{
    for line in rows {
        let (event, answer) = row(heap, line)?;
        answers(rt, heap, mem, line, &event, &answer)?;
    }
    Ok(())
}

// Every front part of an event's bytes is refused where it ends.
fn cut_short(rt: &impl Abort, heap: Global, mem: &mut [u64], event: &[u8]) -> Result<(), Fail>
    requires live { Live mem.old }
    ensures live { Live mem.new }
{
    for len in 0..event.len() {
        let mut expected = vec![in heap; 0, 1]?;
        expected.extend_from_slice(&(len as u64).to_le_bytes())?;
        answers(rt, heap, mem, "cut short", &event[..len], &expected)?;
    }
    Ok(())
}

fn all_cut_short(rt: &impl Abort, heap: Global, mem: &mut [u64]) -> Result<(), Fail>
    requires live { Live mem.old }
{
    for event in WHOLE {
        let event = bytes(heap, event)?;
        cut_short(rt, heap, mem, &event)?;
    }
    Ok(())
}

#[test]
fn at_a_follower(rt: HostRuntime) -> Result<(), Fail> {
    let mut mem = [0; WORDS];
    open_server(&mut mem, 0)?;
    all_answer(&rt, rt.alloc(), &mut mem, &FOLLOWER)
}

#[test]
fn at_a_leader(rt: HostRuntime) -> Result<(), Fail> {
    let mut mem = [0; WORDS];
    open_server(&mut mem, 0)?;
    all_answer(&rt, rt.alloc(), &mut mem, &LEADER)
}

#[test]
fn cut(rt: HostRuntime) -> Result<(), Fail> {
    let mut mem = [0; WORDS];
    open_server(&mut mem, 0)?;
    all_cut_short(&rt, rt.alloc(), &mut mem)
}

// A text of 256 bytes passes, and one more doesn't.
#[test]
fn long_texts(rt: HostRuntime) -> Result<(), Fail> {
    let heap = rt.alloc();
    let mut mem = [0; WORDS];
    open_server(&mut mem, 0)?;
    let mut event = bytes(heap, "1, 0# 1# 1, 0# 256#")?;
    event.resize(290, 120)?;
    answers(&rt, heap, &mut mem, "long", &event, &[1])?;
    let mut event = bytes(heap, "1, 0# 1# 1, 0# 257#")?;
    event.resize(291, 120)?;
    answers(
        &rt,
        heap,
        &mut mem,
        "long",
        &event,
        &bytes(heap, "0, 2, 0#")?,
    )
}

// As many entries as any room has, all with index 0, and a server too many in the one that is read last.
#[test]
fn many_entries(rt: HostRuntime) -> Result<(), Fail> {
    let heap = rt.alloc();
    let mut mem = [0; WORDS];
    open_server(&mut mem, 0)?;
    let mut event = bytes(heap, "2, 1, 2, 0# 0# 0# 0# 65536#")?;
    event.resize(2_752_555, 0)?;
    answers(
        &rt,
        heap,
        &mut mem,
        "long",
        &event,
        &bytes(heap, "0, 3, 0#")?,
    )?;
    assert!(rt; event.len() == 2_752_555);
    event[2_752_513] = 3;
    answers(
        &rt,
        heap,
        &mut mem,
        "long",
        &event,
        &bytes(heap, "0, 2, 0#")?,
    )
}
