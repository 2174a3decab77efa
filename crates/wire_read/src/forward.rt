// Entries read forward one at a time in the order of their bytes, which is the last first.
ghost use Rattle.std.specs.Prelude.{◌≡◌, ◌<◌};
ghost use Rattle.std.specs.Iterator.{YieldsFirstBy, item_count};
ghost use Rattle.servers.specs.Server.{last_index, last_term};
ghost use Rattle.wire_read.specs.Means.{entries_of, entry_of};

use crate::command::read_entry;
use crate::parts::{Entries, Entry};
use crate::read::number_at;

// Index and term of the first of the entries, which stand at known places in it: its command is not looked at.
pub fn first_place(es: Entries<'_>) -> (u64, u64)
    requires { 0 < es.count }
    ensures index { result.0 ≡ last_index (entries_of es.entry) }
    ensures term { result.1 ≡ last_term (entries_of es.entry) }
{
    let index = number_at(es.bytes, 17);
    let term = number_at(es.bytes, 25);
    (index, term)
}

// Forward over entries in the order of their bytes.
impl<'a> Iterator for Entries<'a> {
    type Item = Entry<'a>;

    ghost next_gives = { YieldsFirstBy entry_of entries_of };

    ghost remaining = { item_count entries_of };

    fn next(&mut self) -> Option<Entry<'a>> {
        if self.count == 0 {
            return None;
        }
        let (entry, bytes) = read_entry(self.bytes).unwrap();
        *self = Entries {
            count: self.count - 1,
            bytes,
        };
        Some(entry)
    }
}
