// The word run by the table: from row to row, without a branch on what a record is. No contract of the run speaks of rows.
#![tactic(auto, unfolding(crate::specs::Rows::group_of, crate::specs::Run::next_at, crate::specs::Rows::symbol_of, crate::specs::Rows::row_after, crate::specs::Rows::answer_of, crate::specs::Table::word_groups, crate::specs::Table::word_symbols, crate::specs::Table::word_nexts, crate::specs::Table::word_answers))]

ghost use Rattle.std.specs.Prelude.{◌≡◌, ◌++◌, ◌<◌, ◌≤◌, length, drop, Ok};
ghost use Rattle.classes.specs.WordBreak as WordBreak;
ghost use Rattle.records.specs.Text.{cell};
ghost use Rattle.records.specs.Refusals.{word_verdict};
ghost use Rattle.words.specs.Run.{next_at, answers};
ghost use Rattle.words.specs.Rows.{group_of, symbol_of, row_after, answer_of};

use crate::table::{ANSWERS, GROUPS, NEXTS, SYMBOLS};

// The look-ahead: what the rules ask of the record at an index, which may be past the last.
fn group_at(words: &[u8], i: usize) -> u8
    requires { i < length words.now → cell words.now i < WordBreak.len }
    ensures { result ≡ group_of (next_at words.now i) }
{
    match words.get(i) {
        Some(&class) => GROUPS[usize::from(class)],
        None => 0,
    }
}

fn symbol_of(class: u8, mark: u8, group: u8) -> usize
    requires { (class < WordBreak.len) × ((mark < 2) × (group < 4)) }
    ensures { result ≡ symbol_of class mark group }
{
    usize::from(SYMBOLS[usize::from(class) * 8 + usize::from(mark) * 4 + usize::from(group)])
}

// A symbol's next rows stand in one number, four bits for each row: what is read does not depend on the row, so no turn waits for a read.
fn row_after(symbol: usize, row: u64) -> u64
    requires { (symbol < 32) × (row < 16) }
    ensures { result ≡ row_after symbol row }
{
    (NEXTS[symbol] >> (row * 4)) % 16
}

// Its answers likewise, one bit for each row.
fn answer_of(symbol: usize, row: u64) -> u8
    requires { (symbol < 32) × (row < 16) }
    ensures { result ≡ answer_of symbol row }
{
    ((u64::from(ANSWERS[symbol]) >> row) % 2) as u8
}

// The answers to all records of an accepted text, into as many cells.
pub(crate) fn write_answers(words: &[u8], pictographs: &[u8], out: &mut [u8])
    requires { (word_verdict words.now pictographs.now ≡ Ok tt) × (length words.now ≤ length out.old) }
    ensures { out.new ≡ answers words.now pictographs.now (length words.now) ++ drop (length words.now) out.old }
{
    // that of the start state
    let mut row: u64 = 0;
    for i in 0..words.len() {
        let group = group_at(words, i + 1);
        let symbol = symbol_of(words[i], pictographs[i], group);
        out[i] = answer_of(symbol, row);
        row = row_after(symbol, row);
    }
}
