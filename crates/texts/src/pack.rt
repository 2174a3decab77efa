// Bytes into words: each whole word at once, the last part by a padded copy, the words after it zero.
ghost use Rattle.std.specs.Prelude.{◌≡◌, ℕ, ◌+◌, ◌-◌, ◌<◌, ◌≤◌, List, [], ◌∷◌, length, map, take};
ghost use Rattle.texts.specs.Means.{perhaps_of};
ghost use Rattle.texts.specs.Words.{number_be, cells, text_words, perhaps_words, word, All};

#[tactic(auto, using(crate::proofs::Parts::number_eight))]
fn number8(bytes: [u8; 8]) -> u64
    ensures { result ≡ number_be 8 bytes }
{
    u64::from_be_bytes(bytes)
}

// The word of less than eight bytes.
fn part_word(text: &[u8]) -> u64
    requires { length text.now < 8 }
    ensures { result ≡ number_be 8 text.now }
{
    let mut bytes = [0u8; 8];
    bytes[..text.len()].copy_from_slice(text);
    number8(bytes)
}

// By an index: of words written through `zip` no contract tells afterwards.
fn pack_whole(row: &mut [u64], chunks: &[[u8; 8]])
    requires { length row.old ≤ length chunks.now }
    ensures { row.new ≡ map (number_be 8) (take (length row.old) chunks.now) }
{
    for (k, word) in row.iter_mut().enumerate() {
        *word = number8(chunks[k]);
    }
}

#[tactic(auto, using(crate::proofs::Parts::cells_short))]
fn pack_rest(row: &mut [u64], text: &[u8])
    requires { (length text.now < 8) × (0 < length row.old) }
    ensures { row.new ≡ cells (length row.old) text.now }
{
    row.fill(0);
    row[0] = part_word(text);
}

// The text's bytes, as far as the row reaches.
#[tactic(auto, using(crate::proofs::Parts::cells_whole))]
pub fn pack(row: &mut [u64], text: &[u8])
    ensures { row.new ≡ cells (length row.old) text.now }
{
    let (chunks, rest) = text.as_chunks::<8>();
    let whole = chunks.len();
    if row.len() <= whole {
        pack_whole(row, chunks);
    } else {
        let (front, back) = row.split_at_mut(whole);
        pack_whole(front, chunks);
        pack_rest(back, rest);
    }
}

// A text: its length, and its bytes.
#[tactic(auto, using(crate::proofs::Parts::head_and_rest, crate::proofs::Parts::long_from))]
pub fn write_text(row: &mut [u64], text: &[u8])
    requires { 0 < length row.old }
    ensures { row.new ≡ text_words (length row.old - 1) text.now }
{
    pack(&mut row[1..], text);
    row[0] = text.len() as u64;
}

// No text.
#[tactic(auto, using(crate::proofs::Parts::zeros_are))]
pub fn write_none(row: &mut [u64])
    requires { 0 < length row.old }
    ensures { row.new ≡ perhaps_words (length row.old - 1) [] }
{
    row.fill(0);
}

// A text where there may be none.
pub fn write_some(row: &mut [u64], text: &[u8])
    requires { (0 < length row.old) × (length text.now + 1 < word) }
    ensures { row.new ≡ perhaps_words (length row.old - 1) (text.now ∷ []) }
{
    write_text(row, text);
    row[0] += 1;
}

// A text or none.
pub fn write_perhaps(row: &mut [u64], text: Option<&[u8]>)
    requires { (0 < length row.old) × (All (λ t. length t + 1 < word) (perhaps_of text)) }
    ensures { row.new ≡ perhaps_words (length row.old - 1) (perhaps_of text.entry) }
{
    match text {
        Some(t) => write_some(row, t),
        None => write_none(row),
    }
}
