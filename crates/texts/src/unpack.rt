// Words back to bytes, eight at a time.
ghost use Rattle.std.specs.Prelude.{◌≡◌, ℕ, ◌*◌, ◌≤◌, length, take};
ghost use Rattle.texts.specs.Words.{bytes_be, unpacked};

fn bytes8(x: u64) -> [u8; 8]
    ensures { result ≡ bytes_be 8 x }
{
    x.to_be_bytes()
}

// By an index: of bytes written through `as_chunks_mut` or `chunks_exact_mut` no contract tells afterwards.
fn unpack_whole(out: &mut [u8], row: &[u64])
    requires { length out.old ≡ 8 * length row.now }
    ensures { out.new ≡ unpacked row.now }
{
    for (k, word) in row.iter().enumerate() {
        out[8 * k..8 * k + 8].copy_from_slice(&bytes8(*word));
    }
}

// The first bytes of the row's, as many as out takes.
#[tactic(auto, using(crate::proofs::Parts::unpacked_part))]
pub fn unpack(out: &mut [u8], row: &[u64])
    requires { length out.old ≤ 8 * length row.now }
    ensures { out.new ≡ take (length out.old) (unpacked row.now) }
{
    let n = out.len();
    let whole = n / 8;
    let (front, back) = out.split_at_mut(8 * whole);
    unpack_whole(front, &row[..whole]);
    if 8 * whole < n {
        back.copy_from_slice(&bytes8(row[whole])[..back.len()]);
    }
}
