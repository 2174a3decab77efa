// An empty region.
ghost use Rattle.std.specs.Prelude.{◌≡◌, ℕ, length};
ghost use Rattle.store.specs.Region.{capacity, numbers, region_size, empty_region};
ghost use Rattle.store.specs.Calls.{Held};

fn number_rows(index: &mut [u64])
    ensures { index.new ≡ numbers 0 (length index.old) }
{
    for (i, row) in index.iter_mut().enumerate() {
        *row = i as u64;
    }
}

// Makes words a region with room for n items, and none in it.
#[tactic(auto, using(crate::proofs::Writing::start_is, crate::proofs::Regions::ok_empty))]
pub fn open_region(region: &mut [u64], n: usize)
    requires { length region.old ≡ region_size n }
    ensures empty { region.new ≡ empty_region n }
    ensures held { Held region.new }
    ensures room { capacity region.new ≡ n }
{
    region.fill(0);
    region[1] = n as u64;
    number_rows(&mut region[2..2 + n]);
}
