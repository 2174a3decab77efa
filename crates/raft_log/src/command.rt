// A command into the 76 words of its row: each byte is copied once, and words past a text's end are zero.
ghost use Rattle.std.specs.Prelude.{◌≡◌, ℕ, ◌+◌, ◌-◌, ◌*◌, ◌<◌, ◌≤◌, ◌∷◌, ◌++◌, length};
ghost use Rattle.texts.specs.Words.{text_words, perhaps_words};
ghost use Rattle.wire_read.specs.Means.{perhaps_of, command_of};
ghost use Rattle.raft_log.specs.Rows.{command_words};

use texts::pack::{write_perhaps, write_text};
use wire_read::parts::Command;

fn pack_parts(words: &mut [u64], tag: u64, name: &[u8], expected: Option<&[u8]>, text: &[u8])
    requires { length words.old ≡ 76 }
    ensures { words.new ≡ tag ∷ (text_words 8 name.now
        ++ (perhaps_words 32 (perhaps_of expected.entry) ++ text_words 32 text.now)) }
{
    words[0] = tag;
    write_text(&mut words[1..10], name);
    write_perhaps(&mut words[10..43], expected);
    write_text(&mut words[43..76], text);
}

// A command that has no text has an empty one there.
pub fn pack_command(words: &mut [u64], command: Command<'_>)
    requires { length words.old ≡ 76 }
    ensures { words.new ≡ command_words (command_of command.entry) }
{
    match command {
        Command::Get(name) => pack_parts(words, 0, name, None, &[]),
        Command::Put(name, text) => pack_parts(words, 1, name, None, text),
        Command::Remove(name) => pack_parts(words, 2, name, None, &[]),
        Command::Swap(name, expected, text) => pack_parts(words, 3, name, expected, text),
        Command::DropIf(name, text) => pack_parts(words, 4, name, None, text),
    }
}
