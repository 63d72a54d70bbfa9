// Looking through whole columns: the greatest value decides, so that no loop has a branch.
ghost use Rattle.std.specs.Prelude.{◌≡◌, ◌||◌, ◌<◌, ◌%◌, leb, length};
ghost use Rattle.basics.specs.Sets.{any};
ghost use Rattle.lines.specs.Rules.{row_in};

// Whether a cell of two columns of one length names a row that the table has not. Two at a time: the greatest value waits for the one
// before, so that two halves take half the time of the whole.
fn either_names(first: &[u8], second: &[u8], rows: usize) -> bool
    requires { (0 < rows) × (length second.now ≡ length first.now) }
    ensures { result ≡ (any (λ v. leb rows (row_in v)) first.now || any (λ v. leb rows (row_in v)) second.now) }
{
    let mut one: u8 = 0;
    let mut two: u8 = 0;
    for i in 0..first.len() {
        one = one.max(first[i] % 64);
        two = two.max(second[i] % 64);
    }
    rows <= usize::from(one.max(two))
}

// Whether a cell names a row that the table has not.
pub(crate) fn names_no_row(table: &[u8], rows: usize) -> bool
    requires { (0 < rows) × (length table.now % 2 ≡ 0) }
    ensures { result ≡ any (λ v. leb rows (row_in v)) table.now }
{
    let half = table.len() / 2;
    either_names(&table[..half], &table[half..], rows)
}
