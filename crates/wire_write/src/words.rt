// Writers of texts that stand in words, eight bytes to a word: from memory straight into the bytes of a message.
ghost use Rattle.std.specs.Prelude.{◌≡◌, ◌+◌, ◌-◌, ◌*◌, ◌<◌, ◌≤◌, length, take, slice_index};
ghost use Rattle.texts.specs.Words.{perhaps_in, text_in, unpacked};
ghost use Rattle.wire.specs.Write.{write_perhaps, write_text};
ghost use Rattle.wire_write.specs.Put.{Room, Wrote};

use crate::writer::Writer;
use texts::unpack::unpack;

impl Writer<'_> {
    // The first bytes of words.
    fn unpacked(&mut self, words: &[u64], len: usize)
        requires room { Room len self.old }
        requires there { len ≤ 8 * length words.now }
        ensures { Wrote (take len (unpacked words.now)) self.old self.new }
    {
        let end = self.at + len;
        unpack(&mut self.out[self.at..end], words);
        self.at = end;
    }

    // Bytes of words with their length before them.
    fn sized(&mut self, words: &[u64], len: usize)
        requires room { Room (8 + len) self.old }
        requires there { len ≤ 8 * length words.now }
        ensures { Wrote (write_text (take len (unpacked words.now))) self.old self.new }
    {
        self.number(len as u64);
        self.unpacked(words, len);
    }

    // A text that stands in words with its length before it.
    pub fn text_in(&mut self, words: &[u64])
        requires some { 0 < length words.now }
        requires sound { slice_index words.now 0 ≤ 8 * (length words.now - 1) }
        requires room { Room (length (write_text (text_in words.now))) self.old }
        ensures { Wrote (write_text (text_in words.now)) self.old self.new }
    {
        self.sized(&words[1..], words[0] as usize);
    }

    // A text or none: the word before it is 0, or one more than its length.
    pub fn perhaps_in(&mut self, words: &[u64])
        requires some { 0 < length words.now }
        requires sound { slice_index words.now 0 ≤ 8 * (length words.now - 1) + 1 }
        requires room { Room (length (write_perhaps (perhaps_in words.now))) self.old }
        ensures { Wrote (write_perhaps (perhaps_in words.now)) self.old self.new }
    {
        if words[0] == 0 {
            self.byte(0);
        } else {
            self.byte(1);
            self.sized(&words[1..], words[0] as usize - 1);
        }
    }
}
