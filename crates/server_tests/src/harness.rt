// Servers of a group of three, with two clients and room for three entries.
ghost use Rattle.std.specs.Prelude.{◌<◌, ◌≤◌, length, OnOk};
ghost use Rattle.server_tests.specs.Live.{Live};

use server::open;
use server::step::step;
use servers::limits::Limits;
use state::view::View;
use std::alloc::{AllocError, Global};
use std::test::Fail;
use store::bytes::look_up;
use texts::pack::write_text;

pub const WORDS: usize = 527;

const BYTES: usize = 5_565;

pub fn open_server(mem: &mut [u64], me: u64) -> Result<(), Fail>
    requires me { me < 3 }
    ensures { OnOk result (Live mem.new) }
{
    let l = Limits {
        servers: 3,
        me,
        clients: 2,
        room: 3,
    };
    open::open(mem, l, BYTES)?;
    Ok(())
}

// The bytes of the answer to an event.
pub fn take(heap: Global, mem: &mut [u64], event: &[u8]) -> Result<Vec<u8>, AllocError>
    requires live { Live mem.old }
    ensures live { Live mem.new }
{
    let mut out = [0u8; BYTES];
    let len = step(mem, event, &mut out).len();
    Vec::from_slice(heap, &out[..len.min(BYTES)])
}

// Whether the store has this text for a name.
pub fn has(mem: &[u64], name: &[u8], text: &[u8]) -> bool
    requires live { Live mem.now }
    requires name { length name.now ≤ 64 }
    requires text { length text.now ≤ 256 }
{
    let mut words = [0u64; 33];
    write_text(&mut words, text);
    match look_up(View::new(mem).store(), name) {
        Some(found) => found == &words[..],
        None => false,
    }
}
