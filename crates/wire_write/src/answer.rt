// Answers: the enum that a call returns, and the writers of what stands before the parts of an answer's bytes.
ghost use Rattle.std.specs.Prelude.{◌≡◌, ◌+◌, ◌++◌, length};
ghost use Rattle.servers.specs.Server.{not_leader, refused};
ghost use Rattle.wire.specs.Write.{write_answer};
ghost use Rattle.wire_write.specs.Answers.{answer_length};
ghost use Rattle.wire_write.specs.Heads.{comes_head, does_head, letter_head};
ghost use Rattle.wire_write.specs.Put.{Room, Wrote};

use crate::writer::Writer;

#[derive(Clone, Copy, PartialEq, Eq, Debug)]
pub enum Answer {
    // which refusal, and the place
    Refused(u8, u64),
    NotLeader,
    // how many are told, how many letters, how many bytes were written
    Does(u64, u64, usize),
}

impl Answer {
    // How many bytes it has.
    pub fn len(self) -> usize
        ensures { result ≡ answer_length self }
    {
        match self {
            Answer::Refused(..) => 10,
            Answer::NotLeader => 1,
            Answer::Does(_, _, len) => len,
        }
    }
}

impl Writer<'_> {
    pub fn refused(&mut self, refusal: u8, place: u64)
        requires { Room 10 self.old }
        ensures bytes { Wrote (write_answer (refused refusal place)) self.old self.new }
        ensures at { self.new.at ≡ self.old.at + 10 }
    {
        self.byte(0);
        self.byte(refusal);
        self.number(place);
    }

    pub fn not_leader(&mut self)
        requires { Room 1 self.old }
        ensures bytes { Wrote (write_answer not_leader) self.old self.new }
        ensures at { self.new.at ≡ self.old.at + 1 }
    {
        self.byte(1);
    }

    // How many are told. What is told may be there already: the count is known last.
    pub fn does_head(&mut self, told: u64)
        requires { Room 9 self.old }
        ensures bytes { Wrote (does_head told) self.old self.new }
        ensures at { self.new.at ≡ self.old.at + 9 }
    {
        self.byte(2);
        self.number(told);
    }

    // A letter up to its message: to which server, and how many bytes the message has.
    pub fn letter_head(&mut self, to: u8, len: u64)
        requires { Room 9 self.old }
        ensures bytes { Wrote (letter_head to len) self.old self.new }
        ensures at { self.new.at ≡ self.old.at + 9 }
    {
        self.byte(to);
        self.number(len);
    }

    // The event of a message, from the bytes that a letter has of it.
    pub fn comes(&mut self, from: u8, message: &[u8])
        requires { Room (2 + length message.now) self.old }
        ensures bytes { Wrote (comes_head from ++ message.now) self.old self.new }
        ensures at { self.new.at ≡ self.old.at + (2 + length message.now) }
    {
        self.byte(2);
        self.byte(from);
        self.bytes(message);
    }
}
