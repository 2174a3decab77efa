// Readers of bytes, numbers and texts. Each takes what it needs from the front of the bytes and hands on the rest, or says how
// many bytes are left where it is refused: at a byte that can't stand there, or at the end.
ghost use Rattle.std.specs.Prelude.{◌≡◌, ◌+◌, ◌≤◌, length, take, drop};
ghost use Rattle.wire.specs.Read.{number_of, read_byte, read_number, read_text, read_bool, read_perhaps};
ghost use Rattle.wire_read.specs.Means.{Reads, itself, perhaps_of, text_of};

// No value's bytes go on like this: how many bytes are left.
#[derive(Clone, Copy, PartialEq, Eq, Debug)]
pub struct Stuck {
    pub left: usize,
}

pub fn read_byte(b: &[u8]) -> Result<(u8, &[u8]), Stuck>
    ensures { Reads itself (read_byte b.now) result }
{
    match b {
        [first, rest @ ..] => Ok((*first, rest)),
        [] => Err(Stuck { left: 0 }),
    }
}

#[tactic(auto, unfolding(wire::specs::Read::read_number))]
pub fn read_number(b: &[u8]) -> Result<(u64, &[u8]), Stuck>
    ensures { Reads itself (read_number b.now) result }
{
    let Some((front, rest)) = b.split_first_chunk::<8>() else {
        return Err(Stuck { left: 0 });
    };
    Ok((u64::from_le_bytes(*front), rest))
}

// Eight bytes at a place that has them.
#[tactic(auto, unfolding(wire::specs::Read::read_number))]
pub fn number_at(b: &[u8], at: usize) -> u64
    requires { at + 8 ≤ length b.now }
    ensures { result ≡ number_of (take 8 (drop at b.now)) }
{
    let (number, _) = read_number(&b[at..]).unwrap();
    number
}

// A text's bytes are not looked at.
#[tactic(auto, unfolding(wire::specs::Read::read_text, wire::specs::Read::read_bytes))]
pub fn read_text(b: &[u8]) -> Result<(&[u8], &[u8]), Stuck>
    ensures { Reads text_of (read_text b.now) result }
{
    let (len, rest) = read_number(b)?;
    if len > rest.len() as u64 {
        return Err(Stuck { left: 0 });
    }
    Ok(rest.split_at(len as usize))
}

// One of two bytes.
#[tactic(auto, unfolding(wire::specs::Read::read_bool))]
pub fn read_bool(b: &[u8]) -> Result<(bool, &[u8]), Stuck>
    ensures { Reads itself (read_bool b.now) result }
{
    match b {
        [] => Err(Stuck { left: 0 }),
        [0, rest @ ..] => Ok((false, rest)),
        [1, rest @ ..] => Ok((true, rest)),
        _ => Err(Stuck { left: b.len() }),
    }
}

// A text or none.
#[tactic(auto, unfolding(wire::specs::Read::read_perhaps))]
pub fn read_perhaps(b: &[u8]) -> Result<(Option<&[u8]>, &[u8]), Stuck>
    ensures { Reads perhaps_of (read_perhaps b.now) result }
{
    match b {
        [] => Err(Stuck { left: 0 }),
        [0, rest @ ..] => Ok((None, rest)),
        [1, rest @ ..] => {
            let (text, rest) = read_text(rest)?;
            Ok((Some(text), rest))
        }
        _ => Err(Stuck { left: b.len() }),
    }
}
