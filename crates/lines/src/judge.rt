// The refusals of the line step.
#![tactic(auto, unfolding(crate::specs::Refusals::bad_table, crate::specs::Refusals::judged, crate::specs::Refusals::step_verdict))]

ghost use Rattle.std.specs.Prelude.{◌≡◌};
ghost use Rattle.lines.specs.Refusals.{bad_table, bad_state, judged, step_verdict};

use crate::rules::WIDTH;
use crate::sweeps::names_no_row;
use crate::{LineState, line_break};
use records::{Refusal, Side, is_outside, refused};

// The row in which every text starts is the last that a table must have.
const FEWEST: usize = 45;

pub(crate) fn is_bad_table(table: &[u8]) -> bool
    ensures { result ≡ bad_table table.now }
{
    let rows = table.len() / WIDTH;
    table.len() % WIDTH != 0 || rows < FEWEST || names_no_row(table, rows)
}

impl LineState {
    pub(crate) fn is_bad(self, table: &[u8]) -> bool
        ensures { result ≡ bad_state table.now self }
    {
        table.len() / WIDTH <= usize::from(self.row)
            || self
                .previous
                .is_some_and(|class| is_outside(class, line_break::LEN))
    }

    pub(crate) fn judge(self, table: &[u8], class: u8) -> Result<(), Refusal>
        ensures { result ≡ step_verdict table.now self class }
    {
        judge_step(
            table,
            is_outside(class, line_break::LEN),
            self.is_bad(table),
        )
    }
}

// The refusals of a step, of its table, of its record and of its state.
pub(crate) fn judge_step(table: &[u8], unlisted: bool, astray: bool) -> Result<(), Refusal>
    ensures { result ≡ judged table.now unlisted astray }
{
    if is_bad_table(table) {
        return refused(10, Side::Neither, 0);
    }
    if unlisted {
        return refused(4, Side::Record, 0);
    }
    if astray {
        return refused(8, Side::Neither, 0);
    }
    Ok(())
}
