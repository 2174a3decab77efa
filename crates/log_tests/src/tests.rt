// Each test writes entries as the bytes of a message, has the log take them, and looks at the words.
ghost use Rattle.std.specs.Prelude.{◌≡◌, ◌+◌, ◌*◌, ◌^◌, ◌<◌, ◌≤◌, length, take, replicate};
ghost use Rattle.raft_log.specs.Places.{words_of};
ghost use Rattle.wire_write.specs.Put.{Room};
ghost use Rattle.log_tests.specs.Held.{Held};

use raft_log::append::push;
use raft_log::find::{has_new, has_term, last_term, numbers_at, term_at, term_or_zero};
use raft_log::replace::replace;
use raft_log::row::{LogRow, Numbers, ROW};
use raft_log::size::entries_size;
use raft_log::write::write_entries;
use wire_read::message::read_entries;
use wire_read::parts::Command;
use wire_write::writer::Writer;

// An entry that puts a text under the name "n", as its bytes.
fn entry(to: &mut Writer<'_>, index: u64, term: u64, text: &[u8])
    requires { Room (51 + length text.now) to.old }
    ensures long { length to.new.out.now ≡ length to.old.out.now }
    ensures at { to.new.at ≡ to.old.at + 51 + length text.now }
{
    to.byte(3);
    to.number(7);
    to.number(11);
    to.number(index);
    to.number(term);
    to.byte(1);
    to.text(b"n");
    to.text(text);
}

// One entry at the front of the bytes.
fn first(out: &mut [u8], index: u64, term: u64, text: &[u8])
    requires { 51 + length text.now ≤ length out.old }
{
    entry(&mut Writer { out, at: 0 }, index, term, text);
}

// All after an index replaced by so many entries at the front of the bytes; the length after it.
fn replaced(region: &mut [u64], len: usize, index: usize, b: &[u8], count: usize) -> usize
    requires low { (len ≤ 1000) × ((index ≤ len) × (count ≤ 1000)) }
    requires room { (80 * len ≤ length region.old) × (80 * (index + count) ≤ length region.old) }
    ensures { result ≤ 2000 }
{
    let Ok((entries, _)) = read_entries(b, count as u64) else {
        return len;
    };
    if entries.count != count as u64 {
        return len;
    }
    replace(region, len, index, entries);
    index + count
}

// The first rows of a region: a log as it is lent.
fn rows(region: &[u64], len: usize) -> &[LogRow]
    requires { 80 * len ≤ length region.now }
    ensures words { words_of result.now ≡ take (80 * len) region.now }
    ensures long { length result.now ≡ len }
{
    let (rows, _) = region[..ROW * len].as_chunks();
    rows
}

// Whether all words are zero.
fn zero(words: &[u64]) -> bool {
    for w in words {
        if *w != 0 {
            return false;
        }
    }
    true
}

#[test]
fn one_room(rt: HostRuntime) {
    let mut region = [0u64; 80];
    let mut bytes = [0u8; 60];
    assert_eq!(rt;
        term_at(rows(&region, 0), 1),
        None,
        "an empty log has no entry"
    );
    assert_eq!(rt; last_term(rows(&region, 0)), 0, "nor a term");
    first(&mut bytes, 1, 5, b"text");
    assert_eq!(rt; replaced(&mut region, 0, 0, &bytes, 1), 1, "one entry came");
    assert_eq!(rt;
        term_at(rows(&region, 1), 1),
        Some(5),
        "its term is found at its index"
    );
    assert_eq!(rt; term_at(rows(&region, 1), 2), None, "and none after it");
    assert_eq!(rt; term_at(rows(&region, 1), 0), None, "nor before it");
    let numbers = numbers_at(rows(&region, 1), 1);
    assert_eq!(rt; numbers.server, 3);
    assert_eq!(rt; numbers.client, 7);
    assert_eq!(rt; numbers.number, 11);
    assert_eq!(rt;
        replaced(&mut region, 1, 0, &bytes, 0),
        0,
        "replaced by none"
    );
    assert!(rt; zero(&region), "its row is cleared");
}

// Three entries of terms 1, 1 and 2 in a room of four.
fn three(region: &mut [u64]) -> usize
    requires { length region.old ≡ 320 }
    ensures { result ≤ 2000 }
{
    let mut bytes = [0u8; 200];
    let mut to = Writer {
        out: &mut bytes,
        at: 0,
    };
    entry(&mut to, 3, 2, b"the third");
    entry(&mut to, 2, 1, b"");
    entry(&mut to, 1, 1, b"the first");
    replaced(region, 0, 0, &bytes, 3)
}

#[test]
fn in_the_middle(rt: HostRuntime) {
    let mut region = [0u64; 320];
    assert_eq!(rt; three(&mut region), 3);
    assert_eq!(rt;
        term_at(rows(&region, 3), 1),
        Some(1),
        "the last came first in the bytes"
    );
    assert_eq!(rt; term_at(rows(&region, 3), 3), Some(2), "and stands last");
    assert_eq!(rt; last_term(rows(&region, 3)), 2);
    assert!(rt; zero(&region[240..320]), "no row past the end");
    let before = region;
    let mut bytes = [0u8; 80];
    first(&mut bytes, 2, 9, b"another");
    assert_eq!(rt;
        replaced(&mut region, 3, 1, &bytes, 1),
        2,
        "one in place of two"
    );
    assert!(rt; region[0..80] == before[0..80], "the first row stays");
    assert_eq!(rt;
        term_at(rows(&region, 2), 2),
        Some(9),
        "the second is the new one"
    );
    assert!(rt; zero(&region[160..320]), "the third is cleared");
}

#[test]
fn at_the_start_and_the_end(rt: HostRuntime) {
    let mut region = [0u64; 320];
    assert_eq!(rt; three(&mut region), 3);
    let mut bytes = [0u8; 80];
    first(&mut bytes, 4, 3, b"the fourth");
    assert_eq!(rt;
        replaced(&mut region, 3, 3, &bytes, 1),
        4,
        "one more, and the room is full"
    );
    assert_eq!(rt; last_term(rows(&region, 4)), 3);
    assert_eq!(rt;
        term_at(rows(&region, 4), 3),
        Some(2),
        "what was there stays"
    );
    assert_eq!(rt;
        replaced(&mut region, 4, 0, &bytes, 1),
        1,
        "all replaced by one"
    );
    assert_eq!(rt; last_term(rows(&region, 1)), 3);
    assert!(rt; zero(&region[80..320]), "the others are cleared");
}

#[test]
fn terms_are_told_apart(rt: HostRuntime) {
    let mut region = [0u64; 320];
    assert_eq!(rt; three(&mut region), 3);
    assert!(rt; has_term(rows(&region, 3), 3, 2), "an entry of that term");
    assert!(rt; !has_term(rows(&region, 3), 3, 1), "none of another");
    assert!(rt;
        !has_term(rows(&region, 3), 0, 0),
        "none at 0, whatever its term"
    );
    assert!(rt; !has_term(rows(&region, 3), 4, 0), "none past the end");
    assert_eq!(rt; term_or_zero(rows(&region, 3), 4), 0);
    assert!(rt;
        !has_new(rows(&region, 3), 0, 0, 0),
        "no entries bring nothing new"
    );
    assert!(rt;
        !has_new(rows(&region, 3), 2, 3, 2),
        "nor do entries that the log has"
    );
    assert!(rt;
        has_new(rows(&region, 3), 2, 3, 3),
        "one of another term does"
    );
    assert!(rt; has_new(rows(&region, 3), 1, 4, 2), "and one past the end");
}

#[test]
fn longest_command(rt: HostRuntime) {
    let mut region = [0u64; 160];
    let bytes = [255u8; 576];
    let name = &bytes[0..64];
    let expected = &bytes[64..320];
    let text = &bytes[320..576];
    let numbers = Numbers {
        term: 4,
        server: 2,
        client: 1,
        number: 6,
    };
    push(
        &mut region,
        0,
        numbers,
        Command::Swap(name, Some(expected), text),
    );
    assert_eq!(rt; region[4], 3, "a swap");
    assert_eq!(rt; region[5], 64, "its name's length");
    assert_eq!(rt; region[13], u64::MAX, "its name's last word");
    assert_eq!(rt;
        region[14],
        257,
        "one more than the length of what it expects"
    );
    assert_eq!(rt; region[46], u64::MAX);
    assert_eq!(rt; region[47], 256, "its text's length");
    assert_eq!(rt; region[79], u64::MAX, "the last word of the row");
    assert!(rt; zero(&region[80..160]), "the next row is untouched");
    push(&mut region, 1, numbers, Command::Remove(&bytes[0..0]));
    assert_eq!(rt; region[84], 2, "a removal");
    assert!(rt;
        zero(&region[85..160]),
        "of an empty name: all words are zero"
    );
}

// One entry more, of a name of 16 bytes and a text of 64.
fn pushed(region: &mut [u64], len: usize, term: u64, b: &[u8])
    requires held { Held len region.old }
    requires room { len < 4 }
    requires bytes { b.now ≡ replicate 80 97 }
    ensures { Held (len + 1) region.new }
{
    let numbers = Numbers {
        term,
        server: 2,
        client: 1,
        number: 6,
    };
    push(region, len, numbers, Command::Put(&b[0..16], &b[16..80]));
}

// The entries above an index as bytes, or none where they have no room.
fn sent(out: &mut [u8], region: &[u64], len: usize, index: usize) -> usize
    requires held { Held len region.now }
    requires room { len ≤ 4 }
{
    let log = rows(region, len);
    if entries_size(log, index) > out.len() {
        return 0;
    }
    let mut to = Writer { out, at: 0 };
    write_entries(&mut to, log, index);
    to.at
}

// Three entries.
fn filled(region: &mut [u64], b: &[u8])
    requires region { region.old ≡ replicate 320 0 }
    requires bytes { b.now ≡ replicate 80 97 }
    ensures { Held 3 region.new }
{
    pushed(region, 0, 1, b);
    pushed(region, 1, 1, b);
    pushed(region, 2, 5, b);
}

#[test]
fn sent_and_taken(rt: HostRuntime) {
    let mut region = [0u64; 320];
    let mut bytes = [0u8; 400];
    filled(&mut region, &[97u8; 80]);
    let none = sent(&mut bytes, &region, 3, 3);
    assert_eq!(rt; none, 0, "nothing stands above the last");
    let all = sent(&mut bytes, &region, 3, 0);
    assert_eq!(rt; all, 390, "130 bytes each");
    assert_eq!(rt; bytes[17], 3, "the last first: its index");
    assert_eq!(rt; bytes[25], 5, "and its term");
    let mut other = [0u64; 320];
    assert_eq!(rt; replaced(&mut other, 0, 0, &bytes, 3), 3);
    assert!(rt; other == region, "another log that takes them is the same");
    assert_eq!(rt;
        sent(&mut bytes, &region, 3, 2),
        130,
        "one above the second"
    );
    assert_eq!(rt; bytes[17], 3);
}
