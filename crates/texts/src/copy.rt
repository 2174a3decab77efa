// The words of a text copied.
ghost use Rattle.std.specs.Prelude.{◌≡◌, length};

// A text of at most 256 bytes, or none: 33 words. As arrays they go through wide registers: a put with `copy_from_slice` here
// takes 546 instructions, and so 275.
pub fn copy_text(to: &mut [u64], from: &[u64])
    requires to { length to.old ≡ 33 }
    requires from { length from.now ≡ 33 }
    ensures { to.new ≡ from.now }
{
    let out: &mut [u64; 33] = to.first_chunk_mut::<33>().unwrap();
    *out = *from.first_chunk::<33>().unwrap();
}
