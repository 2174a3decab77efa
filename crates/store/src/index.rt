// The index of row numbers: one of them moved to another place, the others shifted by one.
ghost use Rattle.std.specs.Prelude.{◌≡◌, ℕ, ◌<◌, ◌≤◌, length};
ghost use Rattle.store.specs.Region.{opened, closed};

// Puts the first free row, at c, at p among the used ones.
pub fn open_place(index: &mut [u64], p: usize, c: usize)
    requires within { p ≤ c }
    requires free { c < length index.old }
    ensures { index.new ≡ opened p c index.old }
{
    index[p..c + 1].rotate_right(1);
}

// Puts the row at p, one of c used ones, behind the others, where it is the first free one.
pub fn close_place(index: &mut [u64], p: usize, c: usize)
    requires within { p < c }
    requires used { c ≤ length index.old }
    ensures { index.new ≡ closed p c index.old }
{
    index[p..c].rotate_left(1);
}
