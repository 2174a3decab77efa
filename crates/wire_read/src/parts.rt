// Events, commands and messages as they lie in their bytes: numbers by value, texts and entries as the slices where they stand.
// Nothing is copied; specs/Means.antt says what each part means.
ghost use Rattle.std.specs.Prelude.{◌≡◌, true};
ghost use Rattle.wire.specs.Read.{read_entries};
ghost use Rattle.wire_read.specs.Got.{is_got};

#[derive(Clone, Copy)]
pub enum Command<'a> {
    Get(&'a [u8]),
    Put(&'a [u8], &'a [u8]),
    Remove(&'a [u8]),
    Swap(&'a [u8], Option<&'a [u8]>, &'a [u8]),
    DropIf(&'a [u8], &'a [u8]),
}

#[derive(Clone, Copy)]
pub struct Entry<'a> {
    pub at: u8,
    pub client: u64,
    pub id: u64,
    pub index: u64,
    pub term: u64,
    pub command: Command<'a>,
}

// So many entries at the front of these bytes, the last first. All of them are there.
#[derive(Clone, Copy)]
pub struct Entries<'a> {
    pub count: u64,
    pub bytes: &'a [u8],
    pub ghost there: { is_got (read_entries count bytes.now) ≡ true },
}

#[derive(Clone, Copy)]
pub enum Message<'a> {
    // term, and the last entry's index and term
    AskVote(u64, u64, u64),
    Vote(u64, bool),
    // term, the index and term before, how far it is committed, entries
    Append(u64, u64, u64, u64, Entries<'a>),
    // term, up to which index, and whether
    Appended(u64, u64, bool),
}

#[derive(Clone, Copy)]
pub enum Event<'a> {
    Timeout,
    // client, number, command
    Request(u64, u64, Command<'a>),
    // from which server
    Comes(u8, Message<'a>),
    Restart,
    // no event: the place where the bytes cease to be one
    Garbled(usize),
}
