// The run of `next`: the word run's answers, and the line answers laid over them.
ghost use Rattle.std.specs.Prelude.{◌≡◌, ◌++◌, ◌≤◌, length, drop};
ghost use Rattle.basics.specs.Columns.{cells};
ghost use Rattle.lines.specs.Run.{check_verdict};
ghost use Rattle.lines.specs.Inner.{merged, laid_at};

use crate::judge::is_bad_table;
use crate::{LineState, Strength, line_break};
use classes::word_break;
use records::{Refusal, Side, judge_codes, judge_columns, refused};

#[tactic(auto, unfolding(crate::specs::Run::check_verdict))]
pub(crate) fn check(
    table: &[u8],
    lines: &[u8],
    words: &[u8],
    pictographs: &[u8],
) -> Result<(), Refusal>
    ensures { result ≡ check_verdict table.now lines.now words.now pictographs.now }
{
    judge_columns(lines.len(), words.len(), pictographs.len())?;
    if is_bad_table(table) {
        return refused(10, Side::Neither, 0);
    }
    judge_codes(line_break::LEN, word_break::LEN, lines, words, pictographs)
}

fn merge(line: u8, word: u8) -> u8
    ensures { result ≡ merged line word }
{
    if line == 0 { word } else { line }
}

// The line answers to all records, laid over as many cells.
pub(crate) fn lay(table: &[u8], strength: Strength, lines: &[u8], out: &mut [u8])
    requires { length lines.now ≤ length out.old }
    ensures { out.new ≡ cells (laid_at strength table.now lines.now out.old) (length lines.now) ++ drop (length lines.now) out.old }
{
    let mut state = LineState::START;
    for i in 0..lines.len() {
        let class = lines[i];
        let answer = state.answer(table, strength, class);
        // before the store, so that the table's cell is read once
        state = state.after(table, class);
        out[i] = merge(u8::from(answer), out[i]);
    }
}
