// What is timed: names of eight bytes, scattered by a multiplication, and texts of eight bytes.
ghost use Rattle.std.specs.Prelude.{ℕ, ◌<◌};
ghost use Rattle.store.specs.Calls.{Held};

use store::bytes::{do_put, do_remove, look_up};
use store::row;

fn name_of(i: u64) -> [u8; 8] {
    i.wrapping_mul(11400714819323198485).to_be_bytes()
}

// The k-th operation's item.
fn item_of(k: u64, items: u64) -> u64
    requires { 0 < items }
{
    k.wrapping_mul(7919) % items
}

fn put_at(region: &mut [u64], i: u64, text: u64) -> bool
    requires held { Held region.old }
    ensures held { Held region.new }
{
    if row::len(region) >= row::room(region) {
        return false;
    }
    let _reply = do_put(region, &name_of(i), &text.to_be_bytes());
    true
}

// The k-th operation of a kind, on so many items: whether it did what it is for.
pub trait Operation {
    fn done(region: &mut [u64], k: u64, items: u64) -> bool
        requires held { Held region.old }
        requires some { 0 < items }
        ensures { Held region.new };
}

// Each item is put for the first time.
pub struct Fill;

impl Operation for Fill {
    fn done(region: &mut [u64], k: u64, _items: u64) -> bool {
        put_at(region, k, k)
    }
}

pub struct Put;

impl Operation for Put {
    fn done(region: &mut [u64], k: u64, items: u64) -> bool {
        put_at(region, item_of(k, items), k)
    }
}

// Removed and put again, which shifts the index twice.
pub struct Renew;

impl Operation for Renew {
    fn done(region: &mut [u64], k: u64, items: u64) -> bool {
        let i = item_of(k, items);
        let reply = do_remove(region, &name_of(i));
        put_at(region, i, k) && reply.before[0] != 0
    }
}

// How many of so many items are found, in a region that is only lent to be read.
#[inline(never)]
pub fn look_all(region: &[u64], items: u64, operations: u64) -> u64
    requires held { Held region.now }
    requires some { 0 < items }
{
    let mut done = 0;
    for k in 0..operations {
        if look_up(region, &name_of(item_of(k, items))).is_some() {
            done += 1;
        }
    }
    done
}

// How many of so many operations did what they are for. Not inlined, since each kind is counted alone.
#[inline(never)]
pub fn all<O: Operation>(region: &mut [u64], items: u64, operations: u64) -> u64
    requires held { Held region.old }
    requires some { 0 < items }
    ensures held { Held region.new }
{
    let mut done = 0;
    for k in 0..operations {
        if O::done(region, k, items) {
            done += 1;
        }
    }
    done
}
