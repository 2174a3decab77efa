// The checks of an append: one pass over its entries, forward in the order of their bytes.
ghost use Rattle.std.specs.Prelude.{◌≡◌};
ghost use Rattle.std.specs.Bool.{then_some};
ghost use Rattle.checks.specs.Steps.{append_checked, entries_checked, good_front, passes};

use crate::entry::sound_entry;
use crate::fields::{has_room, index_there, stands, term_there};
use crate::refusal::Refusal;
use servers::limits::Limits;
use wire_read::parts::{Entries, Message};

// None if a field of any entry is out of its range, and else whether they stand in a row: a break in the row is kept in mind,
// since a field of a later entry comes before it.
fn pass(l: Limits, before: u64, entries: Entries<'_>) -> Option<bool>
    ensures { result ≡ passes l before entries.entry }
{
    let mut row = true;
    // Each with how many are left, itself among them.
    for (left, entry) in (1..=entries.count).rev().zip(entries) {
        let entry = sound_entry(l, entry)?;
        row &= stands(entry.index, before, left);
    }
    Some(row)
}

// The numbers before the entries: term, the index and term before, commit index.
fn front(l: Limits, term: u64, before: u64, before_term: u64, commit: u64) -> Option<u64>
    ensures { result ≡ then_some (good_front l term before before_term commit) before }
{
    term_there(term)?;
    let before = index_there(l, before)?;
    term_there(before_term)?;
    index_there(l, commit)?;
    Some(before)
}

// The entries, after the numbers were found good.
fn check_entries(l: Limits, before: u64, entries: Entries<'_>) -> Result<Entries<'_>, Refusal>
    ensures { result ≡ entries_checked l before entries.entry }
{
    let Some(row) = pass(l, before, entries) else {
        return Err(Refusal::OutOfRange);
    };
    if !row || !has_room(l, before, entries.count) {
        return Err(Refusal::OutOfRow);
    }
    Ok(entries)
}

// Fields come before the row: all numbers and all entries are looked at before a break in the row, or too many entries, count.
pub fn check_append(
    l: Limits,
    term: u64,
    before: u64,
    before_term: u64,
    commit: u64,
    entries: Entries<'_>,
) -> Result<Message<'_>, Refusal>
    ensures { result ≡ append_checked l term before before_term commit entries.entry }
{
    let Some(before) = front(l, term, before, before_term, commit) else {
        return Err(Refusal::OutOfRange);
    };
    let entries = check_entries(l, before, entries)?;
    Ok(Message::Append(term, before, before_term, commit, entries))
}
