// Events from a buffer of records, each its length and its bytes; their answers go to another as records. What `serve` calls.
ghost use Rattle.std.specs.Prelude.{◌≡◌, ◌+◌, ◌<◌, ◌≤◌, length};
ghost use Rattle.wire.specs.Read.{read_text};
ghost use Rattle.wire.specs.Sizes.{answer_size};
ghost use Rattle.state.specs.Held.{limits_of};
ghost use Rattle.server.specs.Reached.{Reached};
ghost use Rattle.session.specs.Running.{Ended, Ran, RanOne};

use server::open::answer_bytes;
use server::step::step;
use state::view::View;
use wire_read::read::read_text;
use wire_write::writer::Writer;

// How many bytes of records were read, and of answers' records written.
#[derive(Clone, Copy, PartialEq, Eq, Debug)]
pub struct Taken {
    pub read: usize,
    pub written: usize,
}

// One event: its answer is written past the room for its length. Returns the place after it.
fn run_one(mem: &mut [u64], event: &[u8], out: &mut [u8], at: usize) -> usize
    requires reached { Reached (limits_of mem.old) mem.old }
    requires room { at + 8 + answer_size (limits_of mem.old) ≤ length out.old }
    ensures { RanOne mem.old event.now out.old at mem.new out.new result }
{
    let first = at + 8;
    let answer = step(mem, event, &mut out[first..]);
    let len = answer.len();
    Writer { out, at }.number(len as u64);
    first + len
}

// How many bytes the record of the longest answer has.
fn longest(mem: &[u64]) -> usize
    requires reached { Reached (limits_of mem.now) mem.now }
    ensures { result ≡ 8 + answer_size (limits_of mem.now) }
{
    let l = View::new(mem).limits();
    8 + answer_bytes(l)
}

// Whole records are taken while there is room for the record of a longest answer.
pub fn run(mem: &mut [u64], records: &[u8], out: &mut [u8]) -> Taken
    requires reached { Reached (limits_of mem.old) mem.old }
    ensures ran { Ran mem.old records.now out.old mem.new out.new result }
    ensures ended { Ended records.now (length out.new) (8 + answer_size (limits_of mem.old)) result }
{
    let size = longest(mem);
    let mut rest = records;
    let mut written = 0;
    'taking: while size <= out.len() - written {
        let Ok((event, after)) = read_text(rest) else {
            break 'taking;
        };
        written = run_one(mem, event, out, written);
        rest = after;
    }
    Taken {
        read: records.len() - rest.len(),
        written,
    }
}
