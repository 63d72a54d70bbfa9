// The class of one scalar, from range columns.
ghost use Rattle.std.specs.Prelude.{◌≡◌, true, ◌≤◌, length};
ghost use Rattle.properties.specs.Ranges.{ranges, count_of, is_in, code_from};
ghost use Rattle.properties.specs.Inner;
ghost use Rattle.properties.specs.Inner.{ordered, Reach, Place};

#[tactic(auto, unfolding(crate::specs::Ranges::count_of))]
pub(crate) fn count(firsts: usize, lasts: usize, codes: usize, held: usize) -> usize
    ensures { result ≡ count_of firsts lasts codes held }
{
    held.min(firsts.min(lasts.min(codes)))
}

#[tactic(auto, unfolding(crate::specs::Ranges::is_in))]
fn is_in(first: u32, last: u32, scalar: u32) -> bool
    ensures { result ≡ is_in first last scalar }
{
    first <= scalar && scalar <= last
}

fn rises(column: &[u32], n: usize) -> bool
    requires { n ≤ length column.now }
    ensures { result ≡ Inner.rises column.now n }
{
    let mut before: u32 = 0;
    for i in 0..n {
        if column[i] < before {
            return false;
        }
        before = column[i];
    }
    true
}

// The first range that does not end before the scalar, by halving.
fn place(lasts: &[u32], n: usize, scalar: u32) -> usize
    requires { (n ≤ length lasts.now) × (Inner.rises lasts.now n ≡ true) }
    ensures { Place lasts.now n scalar result }
{
    lasts[..n].partition_point(|&last| last < scalar)
}

// The range columns of a file: the first scalar, the last scalar and the code of each range.
#[derive(Clone, Copy)]
pub(crate) struct Rows<'a> {
    pub firsts: &'a [u32],
    pub lasts: &'a [u32],
    pub codes: &'a [u8],
}

impl Rows<'_> {
    // Whether a binary search finds the range of a scalar.
    #[tactic(auto, unfolding(crate::specs::Inner::ordered))]
    pub(crate) fn is_ordered(&self, n: usize) -> bool
        requires { (n ≤ length self.now.firsts.now) × (n ≤ length self.now.lasts.now) }
        ensures { result ≡ ordered self.now.firsts.now self.now.lasts.now n }
    {
        rises(self.firsts, n) && rises(self.lasts, n)
    }

    fn search(&self, n: usize, scalar: u32) -> u8
        requires { Reach n self.now.firsts.now self.now.lasts.now self.now.codes.now × (ordered self.now.firsts.now self.now.lasts.now n ≡ true) }
        ensures { result ≡ code_from (ranges self.now.firsts.now self.now.lasts.now self.now.codes.now n) scalar 0 n }
    {
        let at = place(self.lasts, n, scalar);
        if n <= at {
            return 0;
        }
        if self.firsts[at] <= scalar {
            self.codes[at]
        } else {
            0
        }
    }

    // In columns of any order.
    fn scan(&self, n: usize, scalar: u32) -> u8
        requires { Reach n self.now.firsts.now self.now.lasts.now self.now.codes.now }
        ensures { result ≡ code_from (ranges self.now.firsts.now self.now.lasts.now self.now.codes.now n) scalar 0 n }
    {
        for i in 0..n {
            if is_in(self.firsts[i], self.lasts[i], scalar) {
                return self.codes[i];
            }
        }
        0
    }

    // The class of a scalar; whether the columns are in order is asked once for a whole text.
    pub(crate) fn code_among(&self, n: usize, sorted: bool, scalar: u32) -> u8
        requires { Reach n self.now.firsts.now self.now.lasts.now self.now.codes.now × (sorted ≡ ordered self.now.firsts.now self.now.lasts.now n) }
        ensures { result ≡ code_from (ranges self.now.firsts.now self.now.lasts.now self.now.codes.now n) scalar 0 n }
    {
        if sorted {
            self.search(n, scalar)
        } else {
            self.scan(n, scalar)
        }
    }
}
