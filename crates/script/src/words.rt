// The words of a line: bytes between spaces.
ghost use Rattle.std.specs.Prelude.{◌≡◌, ◌^◌, ◌≤◌, [], length, MatchOption};
ghost use Rattle.std.specs.List.{take_while};
ghost use Rattle.std.specs.Str.Parse.{digits_value, IsNumeral};
ghost use Rattle.script.specs.Words.{in_word, is_space, without_spaces, FirstWord};

fn is_space(b: u8) -> bool
    ensures { result ≡ is_space b }
{
    matches!(b, b' ' | b'\t' | b'\r')
}

// How many bytes in front are spaces.
fn spaces(text: &[u8]) -> usize
    ensures { result ≡ length (take_while is_space text.now) }
{
    text.iter().take_while(|b| is_space(**b)).count()
}

// How many bytes there are before a space.
fn before_space(text: &[u8]) -> usize
    ensures { result ≡ length (take_while in_word text.now) }
{
    text.iter().take_while(|b| !is_space(**b)).count()
}

// The next word of a line, and what stands after it; none where the line has no more words.
pub fn next(line: &[u8]) -> Option<(&[u8], &[u8])>
    ensures { MatchOption result (without_spaces line.now ≡ []) (λ p. FirstWord line.now p.0.now p.1.now) }
{
    let text = &line[spaces(line)..];
    if text.is_empty() {
        return None;
    }
    Some(text.split_at(before_space(text)))
}

// The number that decimal digits write, if it is below 2^64. `parse` would take a sign before them.
pub fn number(digits: &[u8]) -> Option<u64>
    ensures { MatchOption result (IsNumeral 10 digits.now → 2 ^ 64 ≤ digits_value 10 digits.now)
        (λ n. IsNumeral 10 digits.now × (n ≡ digits_value 10 digits.now)) }
{
    if digits.starts_with(b"+") {
        return None;
    }
    str::from_utf8(digits).ok()?.parse::<u64>().ok()
}
