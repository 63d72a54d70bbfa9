// The run that goes forward, by the table: from row to row, without a branch on what a record is. No contract of the run speaks of rows.
ghost use Rattle.std.specs.Prelude.{◌≡◌, ◌++◌, ◌+◌, ◌*◌, ◌<◌, ◌≤◌, length, drop, Ok};
ghost use Rattle.basics.specs.Columns.{cells};
ghost use Rattle.classes.specs.ClusterBreak as ClusterBreak;
ghost use Rattle.uax29.specs.Graphemes.{start_at, grapheme_check};
ghost use Rattle.uax29.specs.GraphemeRows.{cell_of, answer_in, row_in};

use crate::table::TABLE;

// A record's cell does not depend on the row, so no turn waits for a read.
#[tactic(auto, unfolding(crate::specs::GraphemeRows::cell_of, crate::specs::GraphemeTable::grapheme_table))]
fn cell_of(kind: u8, mark: u8) -> u64
    requires { (kind < ClusterBreak.len) × (mark < 2) }
    ensures { result ≡ cell_of kind mark }
{
    TABLE[usize::from(kind) * 2 + usize::from(mark)]
}

fn answer_in(cell: u64, row: u64) -> u8
    requires { row < 32 }
    ensures { result ≡ answer_in cell row }
{
    ((cell >> row) % 2) as u8
}

fn row_in(cell: u64, row: u64) -> u64
    requires { row < 32 }
    ensures { result ≡ row_in cell row }
{
    (cell >> (32 + row % 4 * 8)) % 32
}

// The answers to all records of an accepted text, into as many cells.
pub(crate) fn write_starts(breaks: &[u8], marks: &[u8], out: &mut [u8])
    requires { (grapheme_check breaks.now marks.now ≡ Ok tt) × (length breaks.now ≤ length out.old) }
    ensures { out.new ≡ cells (start_at breaks.now marks.now) (length breaks.now) ++ drop (length breaks.now) out.old }
{
    // that of the start state
    let mut row: u64 = 0;
    for i in 0..breaks.len() {
        let cell = cell_of(breaks[i], marks[i]);
        out[i] = answer_in(cell, row);
        row = row_in(cell, row);
    }
}
