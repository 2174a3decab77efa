// Names and texts as bytes: packed into words, and the five commands on what they are packed into.
ghost use Rattle.std.specs.Prelude.{◌≡◌, ℕ, ◌+◌, ◌-◌, ◌*◌, ◌<◌, ◌≤◌, length};
ghost use Rattle.servers.specs.Store.{get, put, remove, swap, drop_if, look};
ghost use Rattle.texts.specs.Words.{All, text_in, perhaps_in};
ghost use Rattle.texts.specs.Means.{perhaps_of};
ghost use Rattle.store.specs.Region.{capacity, items_of};
ghost use Rattle.store.specs.Calls.{Held, OfText, OfPerhaps, Does, text_of_words};

use crate::reply::{Reply, told_none, told_text};
use crate::row::{NAME, TEXT};
use crate::{commands, find};
use texts::pack::write_text;

// A name or a text: a word for its length, and as many words as its bytes may take.
pub fn packed<const N: usize>(text: &[u8]) -> [u64; N]
    requires { length text.now + 8 ≤ 8 * N }
    ensures words { OfText (N - 1) result }
    ensures text { text_in result ≡ text.now }
{
    let mut words = [0u64; N];
    write_text(&mut words, text);
    words
}

// A text or none.
pub fn packed_perhaps(text: Option<&[u8]>) -> [u64; 33]
    requires { All (λ t. length t ≤ 256) (perhaps_of text) }
    ensures words { OfPerhaps 32 result }
    ensures text { perhaps_in result ≡ perhaps_of text.entry }
{
    match text {
        Some(t) => told_text(&packed::<TEXT>(t)),
        None => told_none(),
    }
}

// The text of a name, in words, if there is one.
pub fn look_up<'a>(region: &'a [u64], name: &[u8]) -> Option<&'a [u64]>
    requires held { Held region.now }
    requires name { length name.now ≤ 64 }
    ensures { text_of_words result ≡ look name.now (items_of region.now) }
{
    find::look_up(region, &packed::<NAME>(name))
}

// The commands, each by one call on what its bytes are packed into: it says of the bytes what a caller would have to prove of the words.
pub fn do_get(region: &[u64], name: &[u8]) -> Reply
    requires held { Held region.now }
    requires name { length name.now ≤ 64 }
    ensures { Does (get name.now) region.now region.now result.after result.before }
{
    commands::do_get(region, &packed::<NAME>(name))
}

pub fn do_put(region: &mut [u64], name: &[u8], text: &[u8]) -> Reply
    requires held { Held region.old }
    requires room { length (items_of region.old) < capacity region.old }
    requires name { length name.now ≤ 64 }
    requires text { length text.now ≤ 256 }
    ensures { Does (put name.now text.now) region.old region.new result.after result.before }
{
    commands::do_put(region, &packed::<NAME>(name), &packed::<TEXT>(text))
}

pub fn do_remove(region: &mut [u64], name: &[u8]) -> Reply
    requires held { Held region.old }
    requires name { length name.now ≤ 64 }
    ensures { Does (remove name.now) region.old region.new result.after result.before }
{
    commands::do_remove(region, &packed::<NAME>(name))
}

pub fn do_swap(region: &mut [u64], name: &[u8], expected: Option<&[u8]>, text: &[u8]) -> Reply
    requires held { Held region.old }
    requires room { length (items_of region.old) < capacity region.old }
    requires name { length name.now ≤ 64 }
    requires expected { All (λ t. length t ≤ 256) (perhaps_of expected) }
    requires text { length text.now ≤ 256 }
    ensures { Does (swap name.now (perhaps_of expected.entry) text.now) region.old region.new
        result.after result.before }
{
    let expected = packed_perhaps(expected);
    commands::do_swap(
        region,
        &packed::<NAME>(name),
        &expected,
        &packed::<TEXT>(text),
    )
}

pub fn do_drop_if(region: &mut [u64], name: &[u8], text: &[u8]) -> Reply
    requires held { Held region.old }
    requires name { length name.now ≤ 64 }
    requires text { length text.now ≤ 256 }
    ensures { Does (drop_if name.now text.now) region.old region.new result.after result.before }
{
    commands::do_drop_if(region, &packed::<NAME>(name), &packed::<TEXT>(text))
}
