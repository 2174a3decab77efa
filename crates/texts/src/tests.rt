// Texts packed, unpacked and compared: empty and longest ones, prefixes, bytes 0 and 255.
ghost use Rattle.std.specs.Prelude.{◌≡◌, ◌≤◌, length};

use crate::{compare, pack, unpack};

// Packs a text into four words and a length, and takes it out again.
fn returns(text: &[u8], out: &mut [u8]) -> bool
    requires { (length text.now ≤ 32) × (length out.old ≡ length text.now) }
{
    let mut row = [7u64; 5];
    pack::write_text(&mut row, text);
    unpack::unpack(out, &row[1..5]);
    row[0] == text.len() as u64 && *out == *text
}

// Whether a comes before b, and not b before a.
fn before(a: &[u8], b: &[u8]) -> bool {
    let mut x = [7u64; 3];
    let mut y = [9u64; 3];
    pack::write_text(&mut x, a);
    pack::write_text(&mut y, b);
    compare::less(&x, &y) && !compare::less(&y, &x) && !compare::same(&x, &y)
}

#[test]
fn texts_return(rt: HostRuntime) {
    assert!(rt; returns(b"", &mut [7; 0]), "empty");
    assert!(rt; returns(b"a", &mut [7; 1]), "one byte");
    assert!(rt; returns(b"1234567", &mut [7; 7]), "less than a word");
    assert!(rt; returns(b"12345678", &mut [7; 8]), "a word");
    assert!(rt; returns(b"123456789", &mut [7; 9]), "more than a word");
    assert!(rt;
        returns(b"\x00\xff\x00\xff\x00\xff\x00\xff\xff\x00", &mut [7; 10]),
        "bytes 0 and 255"
    );
    assert!(rt;
        returns(b"12345678123456781234567812345678", &mut [7; 32]),
        "longest"
    );
}

#[test]
fn order_is_kept(rt: HostRuntime) {
    assert!(rt; before(b"", b"\x00"), "empty and 0");
    assert!(rt; before(b"\x00", b"\x00\x00"), "zeros");
    assert!(rt; before(b"a", b"ab"), "a prefix");
    assert!(rt; before(b"12345678", b"123456780"), "a word is a prefix");
    assert!(rt; before(b"ab", b"b"), "first byte");
    assert!(rt; before(b"a\x7f", b"a\xff"), "bytes above 127");
    assert!(rt;
        before(b"1234567812345678", b"1234567812345679"),
        "last byte of the last word"
    );
    assert!(rt; before(b"\xff\xfe\xff", b"\xff\xff"), "shorter and larger");
}

#[test]
fn words_are_pinned(rt: HostRuntime) {
    let mut row = [7u64; 3];
    pack::write_text(&mut row, b"\x01\x02");
    assert!(rt;
        compare::same(&row, &[2, 0x0102000000000000, 0]),
        "the first byte is the highest"
    );
    pack::write_perhaps(&mut row, Some(b"\x01"));
    assert!(rt;
        compare::same(&row, &[2, 0x0100000000000000, 0]),
        "one more than the length"
    );
    pack::write_perhaps(&mut row, None);
    assert!(rt; compare::same(&row, &[0, 0, 0]), "none");
}
