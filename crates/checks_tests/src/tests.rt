// Three servers of which this is 0, two clients, room for four entries.
use checks::check::check as check_event;
use servers::limits::Limits;
use std::test::Fail;
use wire_read::event::read_event;

const LIMITS: Limits = Limits {
    servers: 3,
    me: 0,
    clients: 2,
    room: 4,
};

// The refusal's number and place, 0 and 0 where the event is handed on.
fn outcome(l: Limits, b: &[u8]) -> (u8, u64) {
    match check_event(l, read_event(b)) {
        Ok(_) => (0, 0),
        Err(refusal) => (refusal.number(), refusal.place()),
    }
}

fn put(b: &mut [u8], marks: &[(usize, u8)]) {
    for mark in marks {
        if mark.0 < b.len() {
            b[mark.0] = mark.1;
        }
    }
}

// An append from server 1 with entries 3 and 2 after entry 1, with some of its bytes changed. Its parts begin at: term 3, index
// before 11, term before 19, commit 27, count 35; the entries at 43 and 86, in each client +1, number +9, index +17, term +25,
// command +33, its name's length +34.
fn append(marks: &[(usize, u8)]) -> (u8, u64) {
    let mut b = [0u8; 129];
    put(
        &mut b,
        &[
            (0, 2),
            (1, 1),
            (2, 2),
            (3, 1),
            (11, 1),
            (19, 1),
            (27, 1),
            (35, 2),
        ],
    );
    put(
        &mut b,
        &[(43, 1), (44, 1), (60, 3), (68, 1), (77, 1), (85, 7)],
    );
    put(
        &mut b,
        &[(86, 1), (87, 1), (103, 2), (111, 1), (120, 1), (128, 7)],
    );
    put(&mut b, marks);
    outcome(LIMITS, &b)
}

// A request of client 1 that gets a name of so many bytes.
fn get(len: u8) -> (u8, u64) {
    let mut b = [0u8; 300];
    put(&mut b, &[(0, 1), (1, 1), (18, len)]);
    let end = 26 + len as usize;
    outcome(LIMITS, &b[..end])
}

// A request that puts a text of so many bytes under the empty name.
fn put_text(low: u8, high: u8) -> (u8, u64) {
    let mut b = [0u8; 2000];
    put(&mut b, &[(0, 1), (17, 1), (26, low), (27, high)]);
    let end = 34 + low as usize + 256 * (high as usize % 4);
    outcome(LIMITS, &b[..end])
}

#[test]
fn no_event(rt: HostRuntime) {
    assert_eq!(rt; outcome(LIMITS, b""), (1, 0), "empty");
    assert_eq!(rt; outcome(LIMITS, b"\x09"), (1, 0), "unknown");
    assert_eq!(rt; outcome(LIMITS, b"\x00\x00"), (1, 1), "bytes after");
    let far = [
        (35, 255),
        (36, 255),
        (37, 255),
        (38, 255),
        (39, 255),
        (40, 255),
        (41, 255),
        (42, 255),
    ];
    assert_eq!(rt; append(&far), (1, 129), "2^64 - 1 entries");
    let long = [
        (77, 255),
        (78, 255),
        (79, 255),
        (80, 255),
        (81, 255),
        (82, 255),
        (83, 255),
        (84, 255),
    ];
    assert_eq!(rt; append(&long), (1, 129), "a name of 2^64 - 1 bytes");
}

#[test]
fn kinds(rt: HostRuntime) {
    assert_eq!(rt; outcome(LIMITS, b"\x00"), (0, 0), "timeout");
    assert_eq!(rt; outcome(LIMITS, b"\x03"), (2, 0), "restart");
    assert_eq!(rt; append(&[]), (0, 0), "append");
    assert_eq!(rt; append(&[(1, 0)]), (2, 0), "from itself");
    assert_eq!(rt; append(&[(1, 2)]), (0, 0), "from the last server");
    assert_eq!(rt; append(&[(1, 3)]), (2, 0), "from none");
    assert_eq!(rt; append(&[(1, 255)]), (2, 0), "from none at all");
}

#[test]
fn numbers(rt: HostRuntime) {
    assert_eq!(rt; append(&[(3, 0), (10, 64)]), (0, 0), "the last term");
    assert_eq!(rt; append(&[(10, 64)]), (2, 0), "one beyond");
    assert_eq!(rt;
        append(&[(19, 0), (26, 64)]),
        (0, 0),
        "the last term before"
    );
    assert_eq!(rt; append(&[(26, 64)]), (2, 0), "one beyond, before");
    assert_eq!(rt; append(&[(27, 4)]), (0, 0), "commit at the room's end");
    assert_eq!(rt; append(&[(27, 5)]), (2, 0), "commit beyond");
    assert_eq!(rt; append(&[(11, 5)]), (2, 0), "index before beyond");
}

#[test]
fn entries(rt: HostRuntime) {
    assert_eq!(rt; append(&[(87, 2)]), (2, 0), "a client too many");
    assert_eq!(rt; append(&[(94, 1)]), (2, 0), "a client far off");
    assert_eq!(rt; append(&[(86, 3)]), (2, 0), "a server too many");
    assert_eq!(rt; append(&[(111, 0), (118, 64)]), (0, 0), "the last term");
    assert_eq!(rt; append(&[(118, 64)]), (2, 0), "one beyond");
    assert_eq!(rt; append(&[(102, 255)]), (0, 0), "any number of the client's");
}

#[test]
fn rows(rt: HostRuntime) {
    assert_eq!(rt; append(&[(60, 4)]), (3, 0), "one late");
    assert_eq!(rt; append(&[(103, 1)]), (3, 0), "one early");
    assert_eq!(rt; append(&[(60, 0)]), (3, 0), "index 0");
    assert_eq!(rt; append(&[(67, 255)]), (3, 0), "an index far off");
    assert_eq!(rt; append(&[(60, 2), (103, 3)]), (3, 0), "the first first");
    assert_eq!(rt;
        append(&[(11, 2), (60, 4), (103, 3)]),
        (0, 0),
        "the room's end"
    );
    assert_eq!(rt;
        append(&[(11, 3), (60, 5), (103, 4)]),
        (3, 0),
        "beyond the room"
    );
    assert_eq!(rt;
        append(&[(60, 4), (87, 2)]),
        (2, 0),
        "a field after a break in the row"
    );
    assert_eq!(rt; append(&[(11, 3), (87, 2)]), (2, 0), "a field, and no room");
    assert_eq!(rt;
        append(&[(60, 4), (27, 5)]),
        (2, 0),
        "commit, and a break in the row"
    );
}

#[test]
fn texts(rt: HostRuntime) {
    assert_eq!(rt; get(0), (0, 0), "no name");
    assert_eq!(rt; get(64), (0, 0), "longest");
    assert_eq!(rt; get(65), (2, 0), "one too many");
    assert_eq!(rt; put_text(255, 0), (0, 0), "a text");
    assert_eq!(rt; put_text(0, 1), (0, 0), "longest text");
    assert_eq!(rt; put_text(1, 1), (2, 0), "one too many");
}

// As many entries as any room has, all with index 0, and a server too many in the last that is read.
#[test]
fn many(rt: HostRuntime) -> Result<(), Fail> {
    let mut b = vec![in rt.alloc(); 0u8; 2_752_555]?;
    put(&mut b, &[(0, 2), (1, 1), (2, 2), (37, 1)]);
    assert_eq!(rt; outcome(LIMITS, &b), (3, 0), "out of row");
    put(&mut b, &[(2_752_513, 3)]);
    assert_eq!(rt; outcome(LIMITS, &b), (2, 0), "a field of the last");
    Ok(())
}
