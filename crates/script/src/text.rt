// Names and texts as words of a line: a byte from 33 to 126 other than `\` stands for itself, any other is `\` and two small
// hex digits; `\.` is the empty text.
ghost use Rattle.std.specs.Prelude.{◌≡◌, ℕ, ◌/◌, ◌%◌, ◌<◌, ◌≢◌, [], ◌∷◌, ◌++◌, length, MatchOption, IfErr, IfSome, List, OnOk, ◌⊎◌};
ghost use Rattle.std.specs.Char.{digit_char};
ghost use Rattle.script.specs.Text.{hex_of, InHex, InText, NoFirst, OnlyFirst, Pushed, PushedText, Refuses};

use crate::fault::Fault;

// What a hex digit counts. The library's `to_digit` would take capitals too.
pub fn hex(d: u8) -> Option<u8>
    ensures { MatchOption result ((v : ℕ) → v < 16 → digit_char v ≢ d) (λ v. (v < 16) × (digit_char v ≡ d)) }
{
    match d {
        b'0'..=b'9' => Some(d - b'0'),
        b'a'..=b'f' => Some(d - b'a' + 10),
        _ => None,
    }
}

fn byte(high: u8, low: u8) -> Option<u8>
    ensures { MatchOption result ((b : ℕ) → b < 256 → high ∷ (low ∷ []) ≢ hex_of b) (λ b. high ∷ (low ∷ []) ≡ hex_of b) }
{
    Some(hex(high)? * 16 + hex(low)?)
}

// Bytes as pairs of hex digits, put at the end of `out`.
pub fn push_hex(out: &mut Vec<u8>, digits: &[u8]) -> Result<(), Fault>
    ensures ok { OnOk result (Pushed InHex digits.now [] out.old.items out.new.items) }
    ensures err { IfErr result (λ e. Refuses InHex digits.now e) }
{
    let expected = Fault::Expected("bytes as pairs of small hex digits");
    if digits.len() % 2 != 0 {
        return Err(expected);
    }
    let mut rest = digits;
    while let [high, low, after @ ..] = rest {
        let Some(b) = byte(*high, *low) else {
            return Err(expected);
        };
        out.push(b)?;
        rest = after;
    }
    Ok(())
}

// The byte that the front of a word stands for, and what stands after it.
fn first(word: &[u8]) -> Option<(u8, &[u8])>
    ensures some { IfSome result (λ p. (length p.1.now < length word.now) × ((x : List ℕ) × InText p.0 x × (word.now ≡ x ++ p.1.now))) }
    ensures only { MatchOption result (NoFirst InText word.now) (λ p. OnlyFirst InText word.now p.1.now) }
{
    let (b, rest) = word.split_first()?;
    if *b == b'\\' {
        let [high, low, rest @ ..] = rest else {
            return None;
        };
        return Some((byte(*high, *low)?, rest));
    }
    if b.is_ascii_graphic() {
        Some((*b, rest))
    } else {
        None
    }
}

// The bytes that a word stands for, put at the end of `out`; `what` is expected where it stands for none.
pub fn push_text(out: &mut Vec<u8>, word: &[u8], what: &'static str) -> Result<(), Fault>
    ensures ok { OnOk result (PushedText word.now out.old.items out.new.items) }
    ensures err { IfErr result (λ e. Refuses InText word.now e) }
    ensures says { IfErr result (λ e. (e ≡ Fault.Expected what.entry) ⊎ (e ≡ Fault.NoMemory)) }
{
    if word == b"\\.".as_slice() {
        return Ok(());
    }
    let mut rest = word;
    while !rest.is_empty() {
        let Some((b, after)) = first(rest) else {
            return Err(Fault::Expected(what));
        };
        out.push(b)?;
        rest = after;
    }
    Ok(())
}
