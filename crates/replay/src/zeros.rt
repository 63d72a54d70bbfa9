// Arrays of zeros, whose lengths are those of the layout.
ghost use Rattle.std.specs.Prelude.{◌≡◌, length};
ghost use Rattle.cases.specs.Items.{too_many, most_ranges};
ghost use Rattle.cases.specs.Numbers.{most16};

// One cell more than a text may have, so that a longer one is seen.
pub(crate) const COLUMN: usize = 4097;

// As many as a line can ask for.
pub(crate) const CELLS: usize = 65535;

// As many cells as a line can give to a set of ranges.
pub(crate) const RANGES: usize = 4096;

pub(crate) fn column<T: Copy>(zero: T) -> [T; COLUMN]
    ensures { too_many ≡ length result }
{
    [zero; COLUMN]
}

pub(crate) fn cells<T: Copy>(zero: T) -> [T; CELLS]
    ensures { most16 ≡ length result }
{
    [zero; CELLS]
}

pub(crate) fn ranges<T: Copy>(zero: T) -> [T; RANGES]
    ensures { most_ranges ≡ length result }
{
    [zero; RANGES]
}
