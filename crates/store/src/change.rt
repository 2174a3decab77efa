// A region changed: a text replaced, an item put in, an item taken out.
ghost use Rattle.std.specs.Prelude.{◌≡◌, ℕ, ◌<◌, ◌≤◌, ◌++◌, length, slice_index_or, IfOk, MatchResult};
ghost use Rattle.texts.specs.Words.{text_in};
ghost use Rattle.store.specs.Region.{blank, count, capacity, items_of, replaced_at, inserted_at, removed_at, region_put};
ghost use Rattle.store.specs.Calls.{Held, OfText, SpotOf};

use crate::index::{close_place, open_place};
use crate::row::{INDEX, NAME, ROW, row_at};
use texts::copy::copy_text;

// Another text for the p-th item: its row alone changes.
#[tactic(auto, using(crate::proofs::Writing::length_of_text, crate::proofs::Writing::text_written))]
pub fn replace(region: &mut [u64], p: usize, text: &[u64])
    requires held { Held region.old }
    requires within { p < count region.old }
    requires text { OfText 32 text.now }
    ensures { region.new ≡ replaced_at p (slice_index_or (items_of region.old) p blank).key (text_in text.now) region.old }
{
    let at = row_at(region, p);
    copy_text(&mut region[at + NAME..at + ROW], text);
}

// A name and a text into a row.
pub fn write_row(row: &mut [u64], name: &[u64], text: &[u64])
    requires { (length row.old ≡ 42) × ((length name.now ≡ 9) × (length text.now ≡ 33)) }
    ensures { row.new ≡ name.now ++ text.now }
{
    let (front, back) = row.split_at_mut(NAME);
    front.copy_from_slice(name);
    copy_text(back, text);
}

// A new item as the p-th, in the first free row.
#[tactic(auto, using(crate::proofs::Writing::length_of_text, crate::proofs::Writing::insert_is))]
pub fn insert(region: &mut [u64], p: usize, name: &[u64], text: &[u64])
    requires held { Held region.old }
    requires room { count region.old < capacity region.old }
    requires within { p ≤ count region.old }
    requires name { OfText 8 name.now }
    requires text { OfText 32 text.now }
    ensures { region.new ≡ inserted_at p (text_in name.now) (text_in text.now) region.old }
{
    let c = region[0] as usize;
    let n = region[1] as usize;
    let at = row_at(region, c);
    write_row(&mut region[at..at + ROW], name, text);
    open_place(&mut region[INDEX..INDEX + n], p, c);
    region[0] = c as u64 + 1;
}

// The p-th item out: its row is free, and its words stay.
#[tactic(auto, using(crate::proofs::Reading::held_long))]
pub fn remove_at(region: &mut [u64], p: usize)
    requires held { Held region.old }
    requires within { p < count region.old }
    ensures { region.new ≡ removed_at p region.old }
{
    let c = region[0] as usize;
    let n = region[1] as usize;
    close_place(&mut region[INDEX..INDEX + n], p, c);
    region[0] = c as u64 - 1;
}

// A text under a name, whose spot this is.
#[tactic(auto, using(crate::proofs::Doing::put_parts))]
pub fn put_item(region: &mut [u64], spot: Result<usize, usize>, name: &[u64], text: &[u64])
    requires held { Held region.old }
    requires room { count region.old < capacity region.old }
    requires spot { SpotOf (text_in name.now) region.old spot }
    requires name { OfText 8 name.now }
    requires text { OfText 32 text.now }
    ensures { region.new ≡ region_put (text_in name.now) (text_in text.now) region.old }
{
    match spot {
        Ok(p) => replace(region, p, text),
        Err(p) => insert(region, p, name, text),
    }
}

// Nothing at this spot.
pub fn remove_item(region: &mut [u64], spot: Result<usize, usize>)
    requires held { Held region.old }
    requires within { IfOk spot (λ p. p < count region.old) }
    ensures { MatchResult spot (λ p. region.new ≡ removed_at p region.old) (λ _. region.new ≡ region.old) }
{
    if let Ok(p) = spot {
        remove_at(region, p);
    }
}
