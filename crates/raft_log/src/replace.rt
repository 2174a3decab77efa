// Other entries after an index: what a follower does with the entries of a leader. They are read forward from the message's
// bytes, the last first, while rows are written downward, so each byte is copied once and straight to its place.
ghost use Rattle.std.specs.Prelude.{◌≡◌, ℕ, ◌+◌, ◌-◌, ◌*◌, ◌^◌, ◌<◌, ◌≤◌, ◌++◌, length, replicate};
ghost use borrow.Rule.Slice.PartMut.{put_mid};
ghost use Rattle.servers.specs.Server.{up_to};
ghost use Rattle.wire_read.specs.Means.{entry_of, entries_of};
ghost use Rattle.raft_log.specs.Rows.{row_words, log_words, log_region, Row};
ghost use Rattle.raft_log.specs.Places.{Log};

use crate::row::{Numbers, ROW, pack_row, place};
use wire_read::parts::{Entries, Entry};

// An entry of a message into its row.
fn pack_entry(row: &mut [u64], entry: Entry<'_>)
    requires { length row.old ≡ 80 }
    ensures { row.new ≡ row_words (entry_of entry.entry) }
{
    let numbers = Numbers {
        term: entry.term,
        server: u64::from(entry.at),
        client: entry.client,
        number: entry.id,
    };
    pack_row(row, numbers, entry.command);
}

// The entries of a message into as many rows.
// A row is lent by its place: after a loop over `rchunks_exact_mut` the check knows nothing of the words that it wrote.
fn pack_rows(rows: &mut [u64], entries: Entries<'_>)
    requires size { length rows.old ≡ 80 * entries.count }
    requires low { entries.count ≤ 2 ^ 32 }
    ensures rows { rows.new ≡ log_words (entries_of entries.entry) }
    ensures count { length (entries_of entries.entry) ≡ entries.entry.count }
{
    for (i, entry) in (0..entries.count as usize).rev().zip(entries) {
        pack_entry(&mut rows[ROW * i..ROW * (i + 1)], entry);
    }
}

// The rows after an index, up to another, are zero: as far as a longer log was there, and no further.
fn clear(region: &mut [u64], index: usize, end: usize)
    requires low { end ≤ 2 ^ 32 }
    requires some { index ≤ end }
    requires there { 80 * end ≤ length region.old }
    ensures { region.new ≡ put_mid (80 * index) (80 * (end - index)) region.old
        (replicate (80 * (end - index)) 0) }
{
    region[place(index + 1)..place(end + 1)].fill(0);
}

// All after an index is replaced by the entries of a message: the region of any log of that length becomes the region of the
// entries upon what stands up to the index.
pub fn replace(region: &mut [u64], len: usize, index: usize, entries: Entries<'_>)
    requires low { len ≤ 2 ^ 32 }
    requires few { index + entries.count ≤ 2 ^ 32 }
    requires within { index ≤ len }
    requires there { 80 * len ≤ length region.old }
    requires room { 80 * (index + entries.count) ≤ length region.old }
    ensures { (room : ℕ) (es : Log) → length es ≡ len → Row es → len ≤ room → region.old ≡ log_region room es
        → region.new ≡ log_region room (entries_of entries.entry ++ up_to index es) }
{
    let end = index + entries.count as usize;
    pack_rows(&mut region[place(index + 1)..place(end + 1)], entries);
    if end < len {
        clear(region, end, len);
    }
}
