// `check_line`, piece by piece.
#![tactic(auto, unfolding(crate::specs::Rules::line_answer, crate::specs::Rules::line_after))]

ghost use Rattle.std.specs.Prelude.{◌≡◌, [], ◌∷◌};
ghost use Rattle.basics.specs.Sets.{member};
ghost use Rattle.lines.specs.LineBreak as LineBreak;
ghost use Rattle.lines.specs.Rules;
ghost use Rattle.lines.specs.Rules.{as_ideographs, kept_together, previous_in, left_of, right_of, is_mandatory, is_allowed, line_answer, line_after};

use crate::line_break::*;
use crate::{Boundary, LineState, Strength};
use records::cells::cell;

// How many cells a row has: one for each line class, and one for the end of the text.
pub(crate) const WIDTH: usize = 44;

// `PAIR_TABLE[row][class]`; a cell that the table has not is 0.
fn pair(table: &[u8], row: u8, class: u8) -> u8
    ensures { result ≡ Rules.pair table.now row class }
{
    cell(table, usize::from(row) * WIDTH + usize::from(class), 0)
}

fn is_mandatory(v: u8) -> bool
    ensures { result ≡ is_mandatory v }
{
    v / 64 % 2 == 1
}

fn is_allowed(v: u8) -> bool
    ensures { result ≡ is_allowed v }
{
    v / 128 % 2 == 1
}

// The classes that BreakAll treats as ID.
fn is_as_ideograph(class: u8) -> bool
    ensures { result ≡ member as_ideographs class }
{
    matches!(class, AL | NU | SA)
}

// The classes that KeepAll keeps together.
fn is_kept_together(class: u8) -> bool
    ensures { result ≡ member kept_together class }
{
    matches!(class, AI | AL | ID | NU | HY | H2 | H3 | JL | JV | JT | CJ)
}

fn right(class: u8) -> u8
    ensures { result ≡ right_of class }
{
    if is_as_ideograph(class) { ID } else { class }
}

// What the cell that is asked says.
fn told(v: u8, previous: Option<u8>) -> Boundary
    ensures { result ≡ Rules.told v previous }
{
    if is_mandatory(v) {
        Boundary::Mandatory
    } else if is_allowed(v) && previous != Some(ZWJ) {
        Boundary::Line
    } else {
        Boundary::None
    }
}

impl LineState {
    fn left(self) -> u8
        ensures { result ≡ left_of self }
    {
        if self.previous.is_some_and(is_as_ideograph) {
            ID
        } else {
            self.row
        }
    }

    // The cell that is asked: BreakAll takes another one.
    fn asked(self, table: &[u8], strength: Strength, class: u8) -> u8
        ensures { result ≡ Rules.asked strength table.now self class }
    {
        match strength {
            Strength::BreakAll => pair(table, self.left(), right(class)),
            Strength::Normal | Strength::KeepAll => pair(table, self.row, class),
        }
    }

    // Whether KeepAll holds the record and the one before together.
    fn keeps(self, strength: Strength, class: u8) -> bool
        ensures { result ≡ Rules.keeps strength self class }
    {
        matches!(strength, Strength::KeepAll)
            && self.previous.is_some_and(is_kept_together)
            && is_kept_together(class)
    }

    // Part of the loop of `lay`, so that this and `after` read one cell of the table.
    #[inline(always)]
    pub(crate) fn answer(self, table: &[u8], strength: Strength, class: u8) -> Boundary
        ensures { result ≡ line_answer strength table.now self class }
    {
        if self.keeps(strength, class) {
            Boundary::None
        } else {
            told(self.asked(table, strength, class), self.previous)
        }
    }

    // What is stored is of the unmodified pair: no strength comes here.
    pub(crate) fn after(self, table: &[u8], class: u8) -> LineState
        ensures { result ≡ line_after table.now self class }
    {
        LineState {
            row: pair(table, self.row, class) % 64,
            previous: Some(class),
        }
    }
}
