// The lookup: the two class columns of a text.
ghost use Rattle.std.specs.Prelude.{◌≡◌, ◌++◌, ◌≤◌, length, drop};
ghost use Rattle.basics.specs.Columns.{cells};
ghost use Rattle.records.specs.Text.{cell};
ghost use Rattle.records.specs.Refusals.{over};
ghost use Rattle.properties.specs.Ranges.{ranges, judge_scalar, lookup_verdict, class_at, filled};

use crate::ranges::{Rows, count};
use records::{Refusal, Side, bad_scalar, refused};

// 3, of the scalar at an index.
#[tactic(auto, unfolding(crate::specs::Ranges::judge_scalar))]
fn judge_scalar(scalar: u32, i: usize) -> Result<(), Refusal>
    ensures { result ≡ judge_scalar scalar i }
{
    if bad_scalar(scalar) {
        return refused(3, Side::Record, i);
    }
    Ok(())
}

#[tactic(auto, using(records::proofs::Over::rests))]
fn judge_scalars(scalars: &[u32]) -> Result<(), Refusal>
    ensures { result ≡ over (λ i. judge_scalar (cell scalars.now i) i) 0 (length scalars.now) }
{
    for i in 0..scalars.len() {
        judge_scalar(scalars[i], i)?;
    }
    Ok(())
}

#[tactic(auto, unfolding(crate::specs::Ranges::lookup_verdict))]
fn judge(scalars: &[u32], breaks: usize, words: usize) -> Result<(), Refusal>
    ensures { result ≡ lookup_verdict scalars.now breaks words }
{
    judge_scalars(scalars)?;
    if breaks.min(words) < scalars.len() {
        return refused(9, Side::Neither, 0);
    }
    Ok(())
}

// The classes of all scalars, in as many cells.
fn fill(scalars: &[u32], rows: &Rows, held: usize, out: &mut [u8])
    requires { length scalars.now ≤ length out.old }
    ensures { out.new ≡ cells (class_at (ranges rows.now.firsts.now rows.now.lasts.now rows.now.codes.now held) scalars.now) (length scalars.now) ++ drop (length scalars.now) out.old }
{
    let n = count(rows.firsts.len(), rows.lasts.len(), rows.codes.len(), held);
    let sorted = rows.is_ordered(n);
    for i in 0..scalars.len() {
        out[i] = rows.code_among(n, sorted, scalars[i]);
    }
}

// The cluster break and the word class of each scalar of a text, from the ranges of both files: first and last scalars, codes, and how
// many are held.
#[tactic(auto, using(crate::proofs::Fills::rooms))]
pub fn lookup(
    scalars: &[u32],
    cluster_firsts: &[u32],
    cluster_lasts: &[u32],
    cluster_codes: &[u8],
    cluster_held: usize,
    word_firsts: &[u32],
    word_lasts: &[u32],
    word_codes: &[u8],
    word_held: usize,
    breaks: &mut [u8],
    words: &mut [u8],
) -> Result<(), Refusal>
    ensures value { result ≡ lookup_verdict scalars.now (length breaks.old) (length words.old) }
    ensures breaks_after { breaks.new ≡ filled result (ranges cluster_firsts.now cluster_lasts.now cluster_codes.now cluster_held) scalars.now breaks.old }
    ensures words_after { words.new ≡ filled result (ranges word_firsts.now word_lasts.now word_codes.now word_held) scalars.now words.old }
{
    judge(scalars, breaks.len(), words.len())?;
    let cluster = Rows {
        firsts: cluster_firsts,
        lasts: cluster_lasts,
        codes: cluster_codes,
    };
    let word = Rows {
        firsts: word_firsts,
        lasts: word_lasts,
        codes: word_codes,
    };
    fill(scalars, &cluster, cluster_held, breaks);
    fill(scalars, &word, word_held, words);
    Ok(())
}
