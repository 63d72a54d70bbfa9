// Reading the columns: past the end stands what the reader names, so that no reader asks anything of its caller.
ghost use Rattle.std.specs.Prelude.{◌≡◌, ltb, get_or, take};
ghost use Rattle.basics.specs.Sets.{any, member};
ghost use Rattle.records.specs.Refusals;

// Cell i of a column, or `past` behind the last.
pub fn cell<T: Copy>(column: &[T], i: usize, past: T) -> T
    ensures { result ≡ get_or column.now i past }
{
    if i < column.len() { column[i] } else { past }
}

// The first n cells, or the whole column where it has fewer.
pub fn first<T>(column: &[T], n: usize) -> &[T]
    ensures { result.now ≡ take n column.now }
{
    if n <= column.len() {
        &column[..n]
    } else {
        column
    }
}

// Whether one of the lengths is above `most`.
pub fn any_above(lengths: &[usize], most: usize) -> bool
    ensures { result ≡ any (ltb most) lengths.now }
{
    lengths.iter().any(|&n| most < n)
}

// Whether the lengths differ.
pub fn uneven(lengths: &[usize]) -> bool
    ensures { result ≡ Refusals.uneven lengths.now }
{
    lengths.iter().any(|&n| n != lengths[0])
}

// Whether the code is one of the list.
pub fn is_member(list: &[u8], x: u8) -> bool
    ensures { result ≡ member list.now x }
{
    list.contains(&x)
}
