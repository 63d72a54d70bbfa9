// The refusals over a whole set of columns, by rising index.
#![tactic(auto, using(crate::proofs::Over::rests), unfolding(crate::specs::Refusals::judge_parts, crate::specs::Refusals::judge_records, crate::specs::Refusals::judge_signs))]

ghost use Rattle.std.specs.Prelude.{◌≡◌, length};
ghost use Rattle.records.specs.Text.{row_of, part_of, cell, record_lengths, part_lengths, lent};
ghost use Rattle.records.specs.Refusals.{over, judge_marked, judge_part, judge_parts, judge_record, judge_records, judge_sign_at, judge_signs, judge_lengths};
ghost use Rattle.records.specs.Sweep.{each_verdict};

use crate::cells::cell;
use crate::judge::{
    is_khmer, is_sign, judge_lengths, judge_marked, judge_part, judge_record, judge_sign,
};
use crate::{Columns, Parser, PartRow, Refusal, Row};

impl Columns<'_> {
    // The cells of one part.
    pub(crate) fn part_row(&self, i: usize) -> PartRow
        ensures { result ≡ part_of (lent self.now).parts i }
    {
        PartRow {
            scalar: cell(self.pscalars, i, 0),
            breaks: cell(self.pbreaks, i, 0),
            uses: cell(self.puses, i, 0),
            category: cell(self.pcategories, i, 0),
        }
    }

    // The cells of one record.
    pub(crate) fn row(&self, i: usize) -> Row
        ensures { result ≡ row_of (lent self.now).records i }
    {
        Row {
            scalar: cell(self.scalars, i, 0),
            breaks: cell(self.breaks, i, 0),
            uses: cell(self.uses, i, 0),
            myanmar: cell(self.myanmars, i, 0),
            category: cell(self.categories, i, 0),
            word: cell(self.words, i, 0),
            semoji: cell(self.semojis, i, 0),
            memoji: cell(self.memojis, i, 0),
            cemoji: cell(self.cemojis, i, 0),
            pictograph: cell(self.pictographs, i, 0),
            selector: cell(self.selectors, i, 0),
            decompose: cell(self.decomposes, i, 0),
            first: cell(self.firsts, i, 0),
            count: cell(self.counts, i, 0),
        }
    }
}

pub fn judge_parts(parser: Parser, columns: &Columns) -> Result<(), Refusal>
    ensures { result ≡ judge_parts parser (lent columns.now).parts }
{
    for i in 0..columns.pscalars.len() {
        judge_part(parser, columns.part_row(i), i)?;
    }
    Ok(())
}

pub fn judge_records(parser: Parser, columns: &Columns, parts: usize) -> Result<(), Refusal>
    ensures { result ≡ judge_records parser (lent columns.now).records parts }
{
    for i in 0..columns.scalars.len() {
        judge_record(parser, columns.row(i), parts, i)?;
    }
    Ok(())
}

// Most records are no sign, which is looked at first.
pub fn judge_sign_at(columns: &Columns, i: usize) -> Result<(), Refusal>
    ensures { result ≡ judge_sign_at (lent columns.now) i }
{
    let x = cell(columns.scalars, i, 0);
    if is_sign(x) {
        let first = cell(columns.firsts, i, 0) as usize;
        return judge_sign(
            cell(columns.decomposes, i, 0),
            x,
            cell(columns.counts, i, 0),
            cell(columns.pscalars, first, 0),
        );
    }
    Ok(())
}

// 7: in Khmer alone.
pub fn judge_signs(parser: Parser, columns: &Columns) -> Result<(), Refusal>
    ensures { result ≡ judge_signs parser (lent columns.now) }
{
    if is_khmer(parser) {
        for i in 0..columns.scalars.len() {
            judge_sign_at(columns, i)?;
        }
    }
    Ok(())
}

// 3 to 7, part by part and record by record. In a frame of its own, so that the check of an accepted text has none of it on its stack.
#[inline(never)]
pub fn judge_each(parser: Parser, columns: &Columns) -> Result<(), Refusal>
    ensures { result ≡ each_verdict parser (lent columns.now) }
{
    judge_parts(parser, columns)?;
    judge_records(parser, columns, columns.pscalars.len())?;
    judge_signs(parser, columns)
}

// 1 and 2.
pub fn judge_shape(columns: &Columns) -> Result<(), Refusal>
    ensures { result ≡ judge_lengths (record_lengths (lent columns.now).records) (part_lengths (lent columns.now).parts) }
{
    judge_lengths(
        &[
            columns.scalars.len(),
            columns.breaks.len(),
            columns.uses.len(),
            columns.myanmars.len(),
            columns.categories.len(),
            columns.words.len(),
            columns.semojis.len(),
            columns.memojis.len(),
            columns.cemojis.len(),
            columns.pictographs.len(),
            columns.selectors.len(),
            columns.decomposes.len(),
            columns.firsts.len(),
            columns.counts.len(),
        ],
        &[
            columns.pscalars.len(),
            columns.pbreaks.len(),
            columns.puses.len(),
            columns.pcategories.len(),
        ],
    )
}

pub fn judge_all_marked(len: u8, classes: &[u8], marks: &[u8]) -> Result<(), Refusal>
    ensures { result ≡ over (λ i. judge_marked len (cell classes.now i) (cell marks.now i) i) 0 (length classes.now) }
{
    for i in 0..classes.len() {
        judge_marked(len, classes[i], cell(marks, i, 0), i)?;
    }
    Ok(())
}
