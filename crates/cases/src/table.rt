// The table that a line lends, cell by cell.
#![tactic(auto, unfolding(crate::specs::Table::times_of, crate::specs::Table::value_of, crate::specs::Table::kept_of))]

ghost use Rattle.std.specs.Prelude.{◌≡◌, ◌-◌, ◌≤◌, length, take, replicate};
ghost use Rattle.std.proofs.lemmas.List.Edits.{sets};
ghost use Rattle.cases.specs.Numbers.{most16};
ghost use Rattle.cases.specs.Table.{times_of, value_of, table_of, reached, kept_of, most_kept};

use crate::columns::value;
use crate::numbers::{Base, MOST16};
use crate::spans::{count, next_of, span, span_at};

// Any number of cells is of the layout. A state names one of 256 rows, and a cell one of 64, so that of more rows than 256 none is asked
// or missed: what is left to know is whether the cells past them make whole rows.
const REACHED: usize = 11264;

pub type Table = [u8; 11307];

// How many cells an item is.
fn times(item: &[u8]) -> usize
    ensures value { result ≡ times_of item.now }
    ensures upper_bound { result ≤ most16 }
{
    match count(item, b'*') {
        0 => 1,
        _ => value(span(item, b'*', 0), Base::Decimal, MOST16) as usize,
    }
}

fn cell(item: &[u8]) -> u8
    ensures { result ≡ value_of item.now }
{
    value(span(item, b'*', count(item, b'*')), Base::Decimal, 255) as u8
}

fn kept(n: usize) -> usize
    ensures value { result ≡ kept_of n }
    ensures upper_bound { result ≤ most_kept }
{
    if n < REACHED { n } else { REACHED + n % 44 }
}

fn lay(out: &mut Table, from: usize, end: usize, v: u8)
    requires { end ≤ reached }
    ensures { out.new ≡ sets out.old from (replicate (end - from) v) }
{
    for i in from..end {
        out[i] = v;
    }
}

// Lays the first 256 rows, and answers how many cells to lend: of a longer table these, and as many more as it has past whole rows.
pub fn lay_table(section: &[u8], out: &mut Table) -> usize
    ensures value { result ≡ kept_of (length (table_of section.now)) }
    ensures out_after { out.new ≡ sets out.old 0 (take reached (table_of section.now)) }
{
    if section.is_empty() {
        return 0;
    }
    let mut n: usize = 0;
    let mut at: usize = 0;
    for _ in 0..count(section, b' ') + 1 {
        let item = span_at(section, at, b' ');
        let end = n + times(item);
        lay(out, n, end.min(REACHED), cell(item));
        n = kept(end);
        at = next_of(section, at, b' ');
    }
    n
}
