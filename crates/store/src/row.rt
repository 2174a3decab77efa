// Rows: where they stand, and their names and texts as parts of the region.
ghost use Rattle.std.specs.Prelude.{◌≡◌, ℕ, ◌+◌, ◌*◌, ◌<◌, ◌≤◌, length, slice_index, slice_index_or};
ghost use Rattle.texts.specs.Words.{text_words};
ghost use Rattle.store.specs.Region.{blank, count, capacity, index_of, items_of};
ghost use Rattle.store.specs.Calls.{Held};

// Where the index begins; the words of a name, of a text and of a row.
pub const INDEX: usize = 2;

pub const NAME: usize = 9;

pub const TEXT: usize = 33;

pub const ROW: usize = 42;

// How many items there are.
pub fn len(region: &[u64]) -> usize
    requires held { Held region.now }
    ensures { result ≡ length (items_of region.now) }
{
    region[0] as usize
}

// For how many there is room.
pub fn room(region: &[u64]) -> usize
    requires held { Held region.now }
    ensures { result ≡ capacity region.now }
{
    region[1] as usize
}

// Where the row begins whose number is at p in the index.
#[tactic(auto, using(crate::proofs::Reading::held_long, crate::proofs::Reading::word_below))]
pub fn row_at(region: &[u64], p: usize) -> usize
    requires held { Held region.now }
    requires within { p < capacity region.now }
    ensures value { result ≡ 2 + capacity region.now + 42 * slice_index (index_of region.now) p }
    ensures end { result + 42 ≤ length region.now }
{
    let n = region[1] as usize;
    let row = region[INDEX + p] as usize;
    INDEX + n + ROW * row
}

// The name of the p-th item.
#[tactic(auto, using(crate::proofs::Reading::name_in))]
pub fn name_at(region: &[u64], p: usize) -> &[u64]
    requires held { Held region.now }
    requires within { p < count region.now }
    ensures { result.now ≡ text_words 8 (slice_index_or (items_of region.now) p blank).key }
{
    let at = row_at(region, p);
    &region[at..at + NAME]
}

// The text of the p-th item.
#[tactic(auto, using(crate::proofs::Reading::text_part))]
pub fn text_at(region: &[u64], p: usize) -> &[u64]
    requires held { Held region.now }
    requires within { p < count region.now }
    ensures { result.now ≡ text_words 32 (slice_index_or (items_of region.now) p blank).value }
{
    let at = row_at(region, p);
    &region[at + NAME..at + ROW]
}
