// Bytes as a line of text: `7,` is a byte, `7#` is the eight bytes of a number, a letter is itself, and spaces are nothing. So a
// text of one byte is `1#x`. What stands before a colon is for the reader.
use std::alloc::{AllocError, Global};

fn read(heap: Global, line: &[u8]) -> Result<Vec<u8>, AllocError> {
    let mut b = Vec::new(heap);
    let mut n = 0u64;
    for c in line {
        match *c {
            b':' => {
                b.clear();
                n = 0;
            }
            b'0'..=b'9' => n = n.wrapping_mul(10).wrapping_add(u64::from(*c & 15)),
            b',' => {
                b.push((n & 255) as u8)?;
                n = 0;
            }
            b'#' => {
                b.extend_from_slice(&n.to_le_bytes())?;
                n = 0;
            }
            b' ' | b'=' => (),
            letter => b.push(letter)?,
        }
    }
    Ok(b)
}

pub fn bytes(heap: Global, line: &str) -> Result<Vec<u8>, AllocError> {
    read(heap, line.as_bytes())
}

// What stands before `=` in a line, and after it.
pub fn row(heap: Global, line: &str) -> Result<(Vec<u8>, Vec<u8>), AllocError> {
    let line = line.as_bytes();
    let end = line.iter().position(|b| *b == b'=').unwrap_or(line.len());
    let (comes, answer) = line.split_at(end);
    Ok((read(heap, comes)?, read(heap, answer)?))
}
