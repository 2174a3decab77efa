// Texts in words of 64 bits: eight bytes to a word, the first byte highest, zeros after the text's end, and before them the length.
// So words compare as texts do.
#![tactic(auto)]

ghost use Rattle.texts.specs.Order.{TextRoundTrip, PerhapsRoundTrip, WordsFit, WordsOrder, WordsSame, PerhapsSame};

pub mod compare;
pub mod copy;
pub mod pack;
#[cfg(test)]
mod tests;
pub mod unpack;

// What is written as words is read back, and each is a word.
pub fn round_trip_stands()
    ensures text { TextRoundTrip }
    ensures perhaps { PerhapsRoundTrip }
    ensures fits { WordsFit }
{}

// Comparing words compares texts.
pub fn order_stands()
    ensures less { WordsOrder }
    ensures same { WordsSame }
    ensures perhaps { PerhapsSame }
{}
