// Entries as the bytes of a message, straight from their rows, the last first: what a leader sends. A command is known by its number, as
// rows and messages have it.
ghost use Rattle.std.specs.Prelude.{◌≡◌, ℕ, ◌+◌, ◌-◌, ◌<◌, ◌≤◌, [], ◌∷◌, ◌++◌, length, slice_index};
ghost use Rattle.servers.specs.Server.{above};
ghost use Rattle.texts.specs.Words.{text_in, perhaps_in};
ghost use Rattle.wire.specs.Write.{write_number, write_command, write_entry, write_entries};
ghost use Rattle.raft_log.specs.Rows.{row_in, command_in};
ghost use Rattle.raft_log.specs.Places.{words_of, log_of};
ghost use Rattle.wire_write.specs.Put.{Room, Wrote};
ghost use Rattle.raft_log.specs.Bytes.{Sound, SoundCommand, SoundRow, write_numbers, write_expected, write_last};

use crate::row::{LogRow, Numbers};
use wire_write::writer::Writer;

// Of the five commands only a swap says what it expects.
fn write_expected(to: &mut Writer<'_>, tag: u64, words: &[u64])
    requires size { length words.now ≡ 33 }
    requires sound { slice_index words.now 0 ≤ 257 }
    requires room { Room (length (write_expected tag (perhaps_in words.now))) to.old }
    ensures { Wrote (write_expected tag (perhaps_in words.now)) to.old to.new }
{
    if tag == 3 {
        to.perhaps_in(words);
    }
}

// Get and remove have no text.
fn write_last(to: &mut Writer<'_>, tag: u64, words: &[u64])
    requires size { length words.now ≡ 33 }
    requires sound { slice_index words.now 0 ≤ 256 }
    requires room { Room (length (write_last tag (text_in words.now))) to.old }
    ensures { Wrote (write_last tag (text_in words.now)) to.old to.new }
{
    if tag != 0 && tag != 2 {
        to.text_in(words);
    }
}

fn write_command(to: &mut Writer<'_>, words: &[u64])
    requires size { length words.now ≡ 76 }
    requires sound { SoundCommand words.now }
    requires room { Room (length (write_command (command_in words.now))) to.old }
    ensures { Wrote (write_command (command_in words.now)) to.old to.new }
{
    let tag = words[0];
    to.byte(tag as u8);
    to.text_in(&words[1..10]);
    write_expected(to, tag, &words[10..43]);
    write_last(to, tag, &words[43..76]);
}

fn write_numbers(to: &mut Writer<'_>, numbers: Numbers, index: u64)
    requires server { numbers.server < 256 }
    requires room { Room 33 to.old }
    ensures bytes { Wrote (write_numbers numbers.server numbers.client numbers.number index numbers.term) to.old to.new }
    ensures at { to.new.at ≡ to.old.at + 33 }
{
    to.byte(numbers.server as u8);
    to.number(numbers.client);
    to.number(numbers.number);
    to.number(index);
    to.number(numbers.term);
}

// The entry of a row, which stands at that index.
fn write_entry(to: &mut Writer<'_>, row: &LogRow, index: u64)
    requires sound { SoundRow row.now }
    requires room { Room (length (write_entry (row_in index row.now))) to.old }
    ensures { Wrote (write_entry (row_in index row.now)) to.old to.new }
{
    write_numbers(to, Numbers::read(row), index);
    write_command(to, &row[4..]);
}

// The entries above an index. Who writes rows asks that they are sound, and who looks one up does not: a type that holds it would ask it
// of all.
pub fn write_entries(to: &mut Writer<'_>, log: &[LogRow], index: usize)
    requires sound { Sound (length log.now) (words_of log.now) }
    requires room { Room (length (write_entries (above index (log_of log.now)))) to.old }
    ensures { Wrote (write_entries (above index (log_of log.now))) to.old to.new }
{
    for i in (index..log.len()).rev() {
        write_entry(to, &log[i], i as u64 + 1);
    }
}
