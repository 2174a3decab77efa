// A server's memory lent to be read: words that hold its limits, its state and its store's region.
ghost use Rattle.std.specs.Prelude.{◌≡◌};
ghost use Rattle.state.specs.Held.{Held};
ghost use Rattle.state.specs.Once.{Held_once};

#[derive(Clone, Copy)]
pub struct View<'a> {
    pub words: &'a [u64],
    pub ghost held: { Held words.now } by { Held_once words.now },
}

impl<'a> View<'a> {
    pub fn new(words: &'a [u64]) -> View<'a>
        requires { Held words.now }
        ensures { result.words ≡ words.entry }
    {
        View { words }
    }
}
