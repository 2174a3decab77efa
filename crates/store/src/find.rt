// A name's place among the sorted names, by halves.
ghost use Rattle.std.specs.Prelude.{◌≡◌, ℕ, ◌<◌, slice_index_or};
ghost use Rattle.servers.specs.Store.{less_text, same_text, look};
ghost use Rattle.texts.specs.Words.{text_in};
ghost use Rattle.store.specs.Region.{blank, count, items_of, place};
ghost use Rattle.store.specs.Calls.{Held, OfText, SpotOf, text_of_words};

use crate::row::{name_at, text_at};

// Whether the name of the p-th item comes before this one.
#[tactic(auto, using(crate::proofs::Reading::less_is, crate::proofs::Reading::nth_good, texts::proofs::Cells::length_cells))]
fn less_at(region: &[u64], p: usize, name: &[u64]) -> bool
    requires held { Held region.now }
    requires within { p < count region.now }
    requires name { OfText 8 name.now }
    ensures { result ≡ less_text (slice_index_or (items_of region.now) p blank).key (text_in name.now) }
{
    texts::compare::less(name_at(region, p), name)
}

// Whether the p-th item has this name.
#[tactic(auto, using(crate::proofs::Reading::same_is, crate::proofs::Reading::nth_good, texts::proofs::Cells::length_cells))]
fn same_at(region: &[u64], p: usize, name: &[u64]) -> bool
    requires held { Held region.now }
    requires within { p < count region.now }
    requires name { OfText 8 name.now }
    ensures { result ≡ same_text (slice_index_or (items_of region.now) p blank).key (text_in name.now) }
{
    texts::compare::same(name_at(region, p), name)
}

// How many names come before this one. By hand: `partition_point` over the index may call its test at any row number, so each row
// is looked for with a check, and a look-up takes 275 instructions among 100 items and 395 among 10,000, where this takes 221 and 308.
pub fn lower_bound(region: &[u64], name: &[u64]) -> usize
    requires held { Held region.now }
    requires name { OfText 8 name.now }
    ensures { result ≡ place (text_in name.now) (items_of region.now) }
{
    let mut lo = 0;
    let mut hi = region[0] as usize;
    while lo < hi {
        let mid = lo + (hi - lo) / 2;
        if less_at(region, mid, name) {
            lo = mid + 1;
        } else {
            hi = mid;
        }
    }
    lo
}

// Where a name is, or where it goes.
#[tactic(auto, using(crate::proofs::Reading::spot_here, crate::proofs::Reading::spot_past))]
pub fn find(region: &[u64], name: &[u64]) -> Result<usize, usize>
    requires held { Held region.now }
    requires name { OfText 8 name.now }
    ensures { SpotOf (text_in name.now) region.now result }
{
    let at = lower_bound(region, name);
    let count = region[0] as usize;
    if at < count && same_at(region, at, name) {
        Ok(at)
    } else {
        Err(at)
    }
}

// The text of a name, in words, if there is one.
#[tactic(auto, using(crate::proofs::Doing::spot_in, crate::proofs::Doing::spot_look))]
pub fn look_up<'a>(region: &'a [u64], name: &[u64]) -> Option<&'a [u64]>
    requires held { Held region.now }
    requires name { OfText 8 name.now }
    ensures { text_of_words result ≡ look (text_in name.now) (items_of region.now) }
{
    match find(region, name) {
        Ok(p) => Some(text_at(region, p)),
        Err(_) => None,
    }
}
