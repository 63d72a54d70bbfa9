// The check of the runs over three columns: classes of two lists, of lengths `first` and `second`, and marks.
#![tactic(auto, using(crate::proofs::Over::rests), unfolding(crate::specs::Refusals::judge_three))]

ghost use Rattle.std.specs.Prelude.{◌≡◌, [], ◌∷◌, length};
ghost use Rattle.records.specs.Text.{cell};
ghost use Rattle.records.specs.Refusals.{over, outside, coded, mark, judge_three, judge_lengths};

use crate::cells::cell;
use crate::judge::{is_bad_marked, is_outside, judge_lengths, refused};
use crate::sweep::is_clean;
use crate::{Refusal, Side};

// 1 and 2.
pub fn judge_columns(classes: usize, others: usize, marks: usize) -> Result<(), Refusal>
    ensures { result ≡ judge_lengths (classes ∷ others ∷ marks ∷ []) [] }
{
    judge_lengths(&[classes, others, marks], &[])
}

pub fn is_bad_three(first: u8, second: u8, class: u8, other: u8, marked: u8) -> bool
    ensures { result ≡ outside (coded class first ∷ coded other second ∷ mark marked ∷ []) }
{
    is_outside(class, first) || is_bad_marked(second, other, marked)
}

// 4, of the record at an index.
fn judge_three(
    first: u8,
    second: u8,
    classes: &[u8],
    others: &[u8],
    marks: &[u8],
    i: usize,
) -> Result<(), Refusal>
    ensures { result ≡ judge_three first second (cell classes.now i) (cell others.now i) (cell marks.now i) i }
{
    let (class, other, marked) = (cell(classes, i, 0), cell(others, i, 0), cell(marks, i, 0));
    if is_bad_three(first, second, class, other, marked) {
        return refused(4, Side::Record, i);
    }
    Ok(())
}

fn judge_all_three(
    first: u8,
    second: u8,
    classes: &[u8],
    others: &[u8],
    marks: &[u8],
) -> Result<(), Refusal>
    ensures { result ≡ over (λ i. judge_three first second (cell classes.now i) (cell others.now i) (cell marks.now i) i) 0 (length classes.now) }
{
    for i in 0..classes.len() {
        judge_three(first, second, classes, others, marks, i)?;
    }
    Ok(())
}

// 4, by rising index: each column of classes is looked through beside the marks without a branch, and only where something is found
// are the records judged one by one.
pub fn judge_codes(
    first: u8,
    second: u8,
    classes: &[u8],
    others: &[u8],
    marks: &[u8],
) -> Result<(), Refusal>
    ensures { result ≡ over (λ i. judge_three first second (cell classes.now i) (cell others.now i) (cell marks.now i) i) 0 (length classes.now) }
{
    if is_clean(first, classes, marks) && is_clean(second, others, marks) {
        return Ok(());
    }
    judge_all_three(first, second, classes, others, marks)
}
