// The token stream: `Tokens` of src/text/cluster/complex.rs, over the lent columns. For simple and Myanmar a token is a record.
#![tactic(auto)]

mod pieces;
pub mod spots;

ghost use Rattle.std.specs.Prelude.{◌≡◌, ◌-◌};
ghost use Rattle.records.specs.Text.{lent};
ghost use Rattle.stream.specs.Stream.{record_tokens, split_tokens, Fills, fetch_in, count_in};

use classes::Mode;
pub use pieces::is_split_sign;
use pieces::{gives_itself, gives_none, own_token, piece, pieces_at};
use records::cells::cell;
use records::{Columns, MOST};

// The most tokens of an accepted text: three of each record.
pub const MOST_TOKENS: usize = 12288;

// The tokens of the simple or the Myanmar parser, with these classes and emoji marks, as many as there is room for: each record is
// one. Cells past them keep their content.
pub fn fill(columns: &Columns, kinds: &[u8], emojis: &[u8], out: &mut [u64]) -> usize
    ensures { Fills (record_tokens (lent columns.now) kinds.now emojis.now) result out.old out.new }
{
    let tokens = columns.scalars.len().min(out.len());
    for i in 0..tokens {
        out[i] = own_token(columns, kinds, cell(emojis, i, 0), i);
    }
    tokens
}

// The first of n records, from record i on, that gives a token: in crate mode a marked record with count 0 gives none. No `find`: where
// none gives one the answer is n, or i where i is past n, as `fetch_in` says.
fn fetch(mode: Mode, n: usize, columns: &Columns, i: usize) -> usize
    ensures { result ≡ fetch_in mode (n - i) (lent columns.now).records.decomposes (lent columns.now).records.counts i }
{
    let mut j = i;
    while j < n
        && gives_none(
            mode,
            cell(columns.decomposes, j, 0),
            cell(columns.counts, j, 0),
        )
    {
        j += 1;
    }
    j
}

// The tokens of the complex parser, as many as there is room for. Most records are one token, which is looked at first. No range counts
// the records and the parts within one.
pub fn collect(mode: Mode, khmer: bool, columns: &Columns, out: &mut [u64]) -> usize
    ensures { Fills (split_tokens mode khmer (lent columns.now)) result out.old out.new }
{
    let n = columns.scalars.len();
    let mut filled: usize = 0;
    let mut i = fetch(mode, n, columns, 0);
    let mut k: usize = 0;
    while i < n {
        if out.len() <= filled {
            return filled;
        }
        if gives_itself(mode, khmer, columns, i) {
            out[filled] = own_token(columns, columns.uses, cell(columns.cemojis, i, 0), i);
            filled += 1;
            i = fetch(mode, n, columns, i + 1);
        } else {
            let pieces = pieces_at(mode, khmer, columns, i);
            out[filled] = piece(mode, khmer, columns, i, k);
            filled += 1;
            k += 1;
            if pieces <= k {
                i = fetch(mode, n, columns, i + 1);
                k = 0;
            }
        }
    }
    filled
}

// How many tokens the first 4,096 records give to the complex parser: no accepted text has more.
pub fn count(mode: Mode, khmer: bool, columns: &Columns) -> usize
    ensures { result ≡ count_in mode khmer (lent columns.now) }
{
    let n = columns.scalars.len().min(MOST);
    let mut sum: usize = 0;
    for i in 0..n {
        sum += pieces_at(mode, khmer, columns, i);
    }
    sum
}
