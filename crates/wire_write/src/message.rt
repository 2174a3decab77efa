// Writers of messages. The entries of an append are written after its head by whoever has them.
ghost use Rattle.std.specs.Prelude.{◌≡◌, ◌+◌};
ghost use Rattle.servers.specs.Server.{appended, ask_vote, vote};
ghost use Rattle.wire.specs.Write.{write_message};
ghost use Rattle.wire_write.specs.Heads.{append_head};
ghost use Rattle.wire_write.specs.Put.{Room, Wrote};

use crate::writer::Writer;

impl Writer<'_> {
    pub fn ask_vote(&mut self, term: u64, index: u64, last_term: u64)
        requires { Room 25 self.old }
        ensures bytes { Wrote (write_message (ask_vote term index last_term)) self.old self.new }
        ensures at { self.new.at ≡ self.old.at + 25 }
    {
        self.byte(0);
        self.number(term);
        self.number(index);
        self.number(last_term);
    }

    pub fn vote(&mut self, term: u64, granted: bool)
        requires { Room 10 self.old }
        ensures bytes { Wrote (write_message (vote term granted)) self.old self.new }
        ensures at { self.new.at ≡ self.old.at + 10 }
    {
        self.byte(1);
        self.number(term);
        self.bool(granted);
    }

    // An append up to its entries: term, the index and term before, how far it is committed, how many entries.
    pub fn append_head(&mut self, term: u64, before: u64, before_term: u64, commit: u64, count: u64)
        requires { Room 41 self.old }
        ensures bytes { Wrote (append_head term before before_term commit count) self.old self.new }
        ensures at { self.new.at ≡ self.old.at + 41 }
    {
        self.byte(2);
        self.number(term);
        self.number(before);
        self.number(before_term);
        self.number(commit);
        self.number(count);
    }

    pub fn appended(&mut self, term: u64, index: u64, ok: bool)
        requires { Room 18 self.old }
        ensures bytes { Wrote (write_message (appended term index ok)) self.old self.new }
        ensures at { self.new.at ≡ self.old.at + 18 }
    {
        self.byte(3);
        self.number(term);
        self.number(index);
        self.bool(ok);
    }
}
