// A server's memory: lent words that hold its limits, its state and its store's region, from one method to the next. In between a method
// may write words one by one.
ghost use Rattle.std.specs.Prelude.{◌≡◌};
ghost use Rattle.state.specs.Held.{Held};
ghost use Rattle.state.specs.Once.{Held_once};

use crate::view::View;

#[derive(Drop)]
pub struct Memory<'a> {
    pub words: &'a mut [u64],
    pub ghost held: { Held words.now } by { Held_once words.now },
}

impl<'a> Memory<'a> {
    pub fn new(words: &'a mut [u64]) -> Memory<'a>
        requires { Held words.old }
        ensures same { result.words.ghost_name ≡ words.entry.ghost_name }
        ensures words { result.words.now ≡ words.old }
    {
        Memory { words }
    }

    // The same words, lent to be read: what a memory says of itself is what this says.
    pub fn view(&self) -> View<'_>
        ensures { result.words.now ≡ self.now.words.now }
    {
        View::new(self.words)
    }
}
