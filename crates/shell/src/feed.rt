// A buffer between an input that comes in parts and records that want to be whole: what has come stands at its front.
ghost use Rattle.std.specs.Prelude.{◌≡◌, ℕ, ◌+◌, ◌-◌, ◌≤◌, List, ◌++◌, length, take, drop, IfOk, Ok, Err, vec_len, ◌==◌};
ghost use Rattle.servers.specs.Store.{pick};

use std::error::Error;
use std::io::Read;
use std::{fmt, io};

// Moves the bytes between two places to the front; behind them nothing changes.
pub fn keep(buf: &mut [u8], from: usize, to: usize)
    requires { (from ≤ to) × (to ≤ length buf.old) }
    ensures { buf.new ≡ take (to - from) (drop from buf.old) ++ drop (to - from) buf.old }
{
    buf.copy_within(from..to, 0);
}

// Reads what comes into the part that is free, which is made larger if there is none. Says how many bytes are there then.
pub fn fill(input: &mut impl Read, buf: &mut Vec<u8>, filled: usize) -> io::Result<usize>
    requires { filled ≤ vec_len buf.old }
    ensures { IfOk result (λ n. (filled ≤ n) × (n ≤ vec_len buf.new)) }
{
    if filled == buf.len() {
        buf.resize(filled.saturating_mul(2).saturating_add(4_096), 0)?;
    }
    let more = input.read(&mut buf[filled..])?;
    Ok(filled + more)
}

// An input ended inside a record: how many of its bytes had come, the length's eight among them.
#[derive(Clone, Copy, PartialEq, Eq, Debug)]
pub struct CutOff {
    pub left: usize,
}

impl fmt::Display for CutOff {
    fn fmt<W: fmt::Write>(&self, f: &mut fmt::Formatter<W>) -> fmt::Result {
        let left = self.left;
        write!(
            f,
            "the input ends inside a record, after {left} of its bytes (the length's eight among them)"
        )
    }
}

impl Error for CutOff {}

// What an input that has ended leaves behind its last whole record: nothing, or a record that is cut off.
pub fn ended(left: usize) -> Result<(), CutOff>
    ensures { result ≡ pick (left == 0) (Ok tt) (Err (record { left = left })) }
{
    if left == 0 {
        Ok(())
    } else {
        Err(CutOff { left })
    }
}

#[cfg(test)]
mod tests {
    use super::*;
    use std::test::Fail;

    #[test]
    fn the_rest_moves_to_the_front(rt: HostRuntime) {
        let mut buf = *b"abcdefgh";
        keep(&mut buf, 3, 6);
        assert_eq!(rt; &buf[0..3], b"def".as_slice());
    }

    #[test]
    fn an_input_that_ends_inside_a_record(rt: HostRuntime) -> Result<(), Fail> {
        assert!(rt; ended(0).is_ok());
        let Err(e) = ended(30) else {
            return Err(Fail::new("no complaint"));
        };
        let says =
            "the input ends inside a record, after 30 of its bytes (the length's eight among them)";
        assert_eq!(rt; e.to_string(rt.alloc())?.as_str(), says);
        Ok(())
    }
}
