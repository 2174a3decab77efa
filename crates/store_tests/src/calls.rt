// The store's functions for tests: each tells whether the reply was the expected one.
ghost use Rattle.std.specs.Prelude.{◌≡◌, ℕ, ◌≤◌, length};
ghost use Rattle.texts.specs.Words.{All};
ghost use Rattle.texts.specs.Means.{perhaps_of};
ghost use Rattle.store.specs.Calls.{Held};

use store::reply::Reply;
use store::{bytes, row};
use texts::pack::{write_perhaps, write_text};

// Whether 33 words are this text or none.
fn is(words: &[u64; 33], text: Option<&[u8]>) -> bool
    requires { All (λ t. length t ≤ 256) (perhaps_of text) }
{
    let mut row = [7u64; 33];
    write_perhaps(&mut row, text);
    *words == row
}

// Whether a reply tells of these texts or none.
fn tells(reply: &Reply, after: Option<&[u8]>, before: Option<&[u8]>) -> bool
    requires { (All (λ t. length t ≤ 256) (perhaps_of after)) × (All (λ t. length t ≤ 256) (perhaps_of before)) }
{
    is(&reply.after, after) && is(&reply.before, before)
}

pub fn has_room(region: &[u64]) -> bool
    requires held { Held region.now }
{
    row::len(region) < row::room(region)
}

pub fn get(region: &[u64], name: &[u8], text: Option<&[u8]>) -> bool
    requires held { Held region.now }
    requires short { (length name.now ≤ 64) × (All (λ t. length t ≤ 256) (perhaps_of text)) }
{
    let reply = bytes::do_get(region, name);
    tells(&reply, text, text)
}

// False where there is no room.
pub fn put(region: &mut [u64], name: &[u8], text: &[u8], old: Option<&[u8]>) -> bool
    requires held { Held region.old }
    requires short { (length name.now ≤ 64) × ((length text.now ≤ 256) × (All (λ t. length t ≤ 256) (perhaps_of old))) }
    ensures held { Held region.new }
{
    if row::len(region) >= row::room(region) {
        return false;
    }
    let reply = bytes::do_put(region, name, text);
    tells(&reply, Some(text), old)
}

pub fn remove(region: &mut [u64], name: &[u8], old: Option<&[u8]>) -> bool
    requires held { Held region.old }
    requires short { (length name.now ≤ 64) × (All (λ t. length t ≤ 256) (perhaps_of old)) }
    ensures held { Held region.new }
{
    let reply = bytes::do_remove(region, name);
    tells(&reply, None, old)
}

// What there is after it, and was before; false where there is no room.
pub fn swap(
    region: &mut [u64],
    name: &[u8],
    expected: Option<&[u8]>,
    text: &[u8],
    new: Option<&[u8]>,
    old: Option<&[u8]>,
) -> bool
    requires held { Held region.old }
    requires short { (length name.now ≤ 64) × ((length text.now ≤ 256) × (All (λ t. length t ≤ 256) (perhaps_of expected))) }
    requires told { (All (λ t. length t ≤ 256) (perhaps_of new)) × (All (λ t. length t ≤ 256) (perhaps_of old)) }
    ensures held { Held region.new }
{
    if row::len(region) >= row::room(region) {
        return false;
    }
    let reply = bytes::do_swap(region, name, expected, text);
    tells(&reply, new, old)
}

pub fn drop_if(
    region: &mut [u64],
    name: &[u8],
    text: &[u8],
    new: Option<&[u8]>,
    old: Option<&[u8]>,
) -> bool
    requires held { Held region.old }
    requires short { (length name.now ≤ 64) × (length text.now ≤ 256) }
    requires told { (All (λ t. length t ≤ 256) (perhaps_of new)) × (All (λ t. length t ≤ 256) (perhaps_of old)) }
    ensures held { Held region.new }
{
    let reply = bytes::do_drop_if(region, name, text);
    tells(&reply, new, old)
}

// Whether the p-th name is this one.
pub fn nth(region: &[u64], p: usize, name: &[u8]) -> bool
    requires held { Held region.now }
{
    if p >= row::len(region) {
        return false;
    }
    let mut words = [7u64; 9];
    write_text(&mut words, name);
    row::name_at(region, p) == &words[..]
}

// A name that is new, with itself as its text.
pub fn put_new(region: &mut [u64], name: &[u8]) -> bool
    requires held { Held region.old }
    requires short { length name.now ≤ 64 }
    ensures held { Held region.new }
{
    put(region, name, name, None)
}

// Puts the names 0 to 7, each with itself as its text, in an order that the step, below 8, gives.
pub fn fill(region: &mut [u64], step: u8) -> bool
    requires held { Held region.old }
    ensures held { Held region.new }
{
    let mut good = true;
    for i in 0..8u8 {
        good &= put_new(region, &[i ^ step]);
    }
    good
}

// Removes them, in an order that the step gives. A loop for both would take the operation, and clauses on what it asks and keeps.
pub fn empty(region: &mut [u64], step: u8) -> bool
    requires held { Held region.old }
    ensures held { Held region.new }
{
    let mut good = true;
    for i in 0..8u8 {
        let name = [i ^ step];
        good &= remove(region, &name, Some(&name));
    }
    good
}
