// One test for each rule of the store.
use crate::calls::*;
use store::row;
use store::start::open_region;

#[test]
fn names_are_in_order(rt: HostRuntime) {
    let mut region = [7u64; 260];
    open_region(&mut region, 6);
    assert!(rt; put_new(&mut region, b"ab"));
    assert!(rt; put_new(&mut region, b""));
    assert!(rt; put_new(&mut region, b"b"));
    assert!(rt; put_new(&mut region, b"a\x00"));
    assert!(rt; put_new(&mut region, b"a"));
    assert!(rt; nth(&region, 0, b"") && nth(&region, 1, b"a") && nth(&region, 2, b"a\x00"));
    assert!(rt; nth(&region, 3, b"ab") && nth(&region, 4, b"b") && !nth(&region, 5, b""));
}

#[test]
fn names_that_begin_alike_are_apart(rt: HostRuntime) {
    let mut region = [7u64; 174];
    open_region(&mut region, 4);
    assert!(rt; put(&mut region, b"ab", b"1", None));
    assert!(rt; put(&mut region, b"", b"2", None));
    assert!(rt; put(&mut region, b"a", b"", None));
    assert!(rt; get(&region, b"a", Some(b"")));
    assert!(rt; get(&region, b"ab", Some(b"1")));
    assert!(rt; get(&region, b"", Some(b"2")));
    assert!(rt; get(&region, b"abc", None));
}

#[test]
fn a_text_is_replaced_and_removed(rt: HostRuntime) {
    let mut region = [7u64; 88];
    open_region(&mut region, 2);
    assert!(rt; put(&mut region, b"k", b"old", None));
    assert!(rt; put(&mut region, b"k", b"", Some(b"old")));
    assert!(rt; get(&region, b"k", Some(b"")));
    assert!(rt; remove(&mut region, b"k", Some(b"")));
    assert!(rt; get(&region, b"k", None));
    assert!(rt; remove(&mut region, b"k", None));
}

#[test]
fn longest_names_and_texts(rt: HostRuntime) {
    let mut region = [7u64; 131];
    open_region(&mut region, 3);
    assert!(rt; put(&mut region, &[255; 64], &[0; 256], None));
    assert!(rt; put(&mut region, &[255; 63], &[255; 256], None));
    assert!(rt; get(&region, &[255; 64], Some(&[0; 256])));
    assert!(rt; get(&region, &[255; 63], Some(&[255; 256])));
    assert!(rt; get(&region, &[255; 62], None));
    assert!(rt; nth(&region, 0, &[255; 63]) && nth(&region, 1, &[255; 64]));
}

#[test]
fn a_swap_wants_just_what_is_there(rt: HostRuntime) {
    let mut region = [7u64; 88];
    open_region(&mut region, 2);
    assert!(rt;
        swap(&mut region, b"k", Some(b""), b"x", None, None),
        "none is not empty"
    );
    assert!(rt;
        swap(&mut region, b"k", None, b"", Some(b""), None),
        "none was expected"
    );
    assert!(rt;
        swap(&mut region, b"k", None, b"x", Some(b""), Some(b"")),
        "empty is not none"
    );
    assert!(rt;
        swap(&mut region, b"k", Some(b""), b"y", Some(b"y"), Some(b"")),
        "empty was expected"
    );
    assert!(rt; get(&region, b"k", Some(b"y")));
}

#[test]
fn a_drop_wants_just_what_is_there(rt: HostRuntime) {
    let mut region = [7u64; 88];
    open_region(&mut region, 2);
    assert!(rt;
        drop_if(&mut region, b"k", b"", None, None),
        "there is none"
    );
    assert!(rt; put(&mut region, b"k", b"y", None));
    assert!(rt;
        drop_if(&mut region, b"k", b"y\x00", Some(b"y"), Some(b"y")),
        "another text"
    );
    assert!(rt;
        drop_if(&mut region, b"k", b"y", None, Some(b"y")),
        "that text"
    );
    assert!(rt; get(&region, b"k", None));
}

#[test]
fn filled_and_emptied_in_another_order(rt: HostRuntime) {
    let mut region = [7u64; 346];
    open_region(&mut region, 8);
    assert!(rt; fill(&mut region, 3), "filled");
    assert!(rt; !has_room(&region), "no room");
    assert!(rt; empty(&mut region, 5), "emptied");
    assert!(rt; row::len(&region) == 0, "empty");
    assert!(rt; fill(&mut region, 7), "filled again");
    assert!(rt; nth(&region, 0, &[0]) && nth(&region, 7, &[7]), "in order");
}
