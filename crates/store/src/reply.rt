// A reply: what there is after a command and was before it, each a text or none in 33 words.
ghost use Rattle.std.specs.Prelude.{◌≡◌, ℕ, ◌<◌, [], ◌∷◌, IfOk};
ghost use Rattle.texts.specs.Words.{text_in, perhaps_words};
ghost use Rattle.store.specs.Region.{count, items_of};
ghost use Rattle.store.specs.Calls.{Held, OfText, text_there};

use crate::row::text_at;
use texts::copy::copy_text;

#[derive(Clone, Copy)]
pub struct Reply {
    pub after: [u64; 33],
    pub before: [u64; 33],
}

// Tells this text.
#[tactic(auto, using(crate::proofs::Writing::length_of_text))]
pub fn told_text(text: &[u64]) -> [u64; 33]
    requires { OfText 32 text.now }
    ensures { result ≡ perhaps_words 32 (text_in text.now ∷ []) }
{
    let mut words = [0u64; 33];
    copy_text(&mut words, text);
    words[0] += 1;
    words
}

// Tells that there is none.
pub fn told_none() -> [u64; 33]
    ensures { result ≡ perhaps_words 32 [] }
{
    [0; 33]
}

// Tells what there is at a spot.
pub fn told(region: &[u64], spot: Result<usize, usize>) -> [u64; 33]
    requires held { Held region.now }
    requires within { IfOk spot (λ p. p < count region.now) }
    ensures { result ≡ perhaps_words 32 (text_there spot (items_of region.now)) }
{
    match spot {
        Ok(p) => told_text(text_at(region, p)),
        Err(_) => told_none(),
    }
}
