// A writer: bytes, numbers and texts one after the other into lent bytes, each at the place after those before it. Nothing else is changed.
ghost use Rattle.std.specs.Prelude.{◌≡◌, ◌+◌, ◌≤◌, [], ◌∷◌, length};
ghost use Rattle.texts.specs.Means.{perhaps_of};
ghost use Rattle.wire.specs.Write.{write_bool, write_number, write_perhaps, write_text};
ghost use Rattle.wire_write.specs.Put.{Room, Wrote};

// What is written goes to `at`.
#[derive(Drop)]
pub struct Writer<'a> {
    pub out: &'a mut [u8],
    pub at: usize,
}

impl Writer<'_> {
    pub fn byte(&mut self, x: u8)
        requires { Room 1 self.old }
        ensures bytes { Wrote (x ∷ []) self.old self.new }
        ensures at { self.new.at ≡ self.old.at + 1 }
    {
        self.out[self.at] = x;
        self.at += 1;
    }

    // Bytes as they are.
    pub fn bytes(&mut self, t: &[u8])
        requires { Room (length t.now) self.old }
        ensures bytes { Wrote t.now self.old self.new }
        ensures at { self.new.at ≡ self.old.at + length t.now }
    {
        let end = self.at + t.len();
        self.out[self.at..end].copy_from_slice(t);
        self.at = end;
    }

    // Eight bytes, the lowest first.
    pub fn number(&mut self, x: u64)
        requires { Room 8 self.old }
        ensures bytes { Wrote (write_number x) self.old self.new }
        ensures at { self.new.at ≡ self.old.at + 8 }
    {
        self.bytes(&x.to_le_bytes());
    }

    // A boolean is one byte.
    pub fn bool(&mut self, x: bool)
        requires { Room 1 self.old }
        ensures bytes { Wrote (write_bool x) self.old self.new }
        ensures at { self.new.at ≡ self.old.at + 1 }
    {
        self.byte(u8::from(x));
    }

    // A text is its length and its bytes.
    pub fn text(&mut self, t: &[u8])
        requires { Room (8 + length t.now) self.old }
        ensures bytes { Wrote (write_text t.now) self.old self.new }
        ensures at { self.new.at ≡ self.old.at + 8 + length t.now }
    {
        self.number(t.len() as u64);
        self.bytes(t);
    }

    // A text or none.
    pub fn perhaps(&mut self, text: Option<&[u8]>)
        requires { Room (length (write_perhaps (perhaps_of text))) self.old }
        ensures bytes { Wrote (write_perhaps (perhaps_of text.entry)) self.old self.new }
        ensures at { self.new.at ≡ self.old.at + length (write_perhaps (perhaps_of text.entry)) }
    {
        match text {
            Some(t) => {
                self.byte(1);
                self.text(t);
            }
            None => self.byte(0),
        }
    }
}
