// Why an event is refused.
ghost use Rattle.std.specs.Prelude.{◌≡◌};
ghost use Rattle.checks.specs.Outcome.{refusal_number, refusal_place};

#[derive(Clone, Copy, PartialEq, Eq, Debug)]
pub enum Refusal {
    // the place where the bytes cease to be an event
    NoEvent(u64),
    OutOfRange,
    OutOfRow,
    LogFull,
    LastTerm,
}

// Methods with names, since `u8::from` and `u64::from` would not say which of the two is meant.
impl Refusal {
    pub fn number(self) -> u8
        ensures { result ≡ refusal_number self }
    {
        match self {
            Refusal::NoEvent(_) => 1,
            Refusal::OutOfRange => 2,
            Refusal::OutOfRow => 3,
            Refusal::LogFull => 4,
            Refusal::LastTerm => 5,
        }
    }

    pub fn place(self) -> u64
        ensures { result ≡ refusal_place self }
    {
        match self {
            Refusal::NoEvent(place) => place,
            _ => 0,
        }
    }
}
