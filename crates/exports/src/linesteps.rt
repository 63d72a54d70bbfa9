// The line step and the step of `next`, over a state of any numbers.
ghost use Rattle.std.specs.Prelude.{◌≡◌, ◌||◌};
ghost use Rattle.exports.specs.Requests.{asked_by};
ghost use Rattle.exports.specs.States.{Stepped};
ghost use Rattle.exports.specs.Words.{bad_marks};
ghost use Rattle.exports.specs.Lines.{previous_of, line_state_of, bad_row, line_for, line_from, line_judged, line_after, line_given, next_for, next_from, next_judged, next_after, next_given};

use crate::Given;
use crate::requests::{asked_by, unlisted};
use crate::results::{mark, numbered, put};
use crate::states::{code, judge};
use crate::wordsteps::next_in;
use lines::{Boundary, BoundaryState, BoundaryStep, LineState, LineStep};

// The class of the record before: the last of those that came, or none.
#[tactic(auto, unfolding(crate::specs::Lines::previous_of))]
fn previous_in(before: &[u8]) -> Option<u8>
    ensures { result ≡ previous_of before.now }
{
    before.last().copied()
}

fn line_state(row: u64, before: &[u8]) -> LineState
    ensures { result ≡ line_state_of row before.now }
{
    LineState {
        row: code(row),
        previous: previous_in(before),
    }
}

fn line_for(strength: u64, table: &[u8], state: LineState, class: u8) -> LineStep
    ensures { result ≡ line_for (asked_by strength) table.now state class }
{
    let Some(held) = asked_by(strength) else {
        return LineStep {
            state,
            answer: Boundary::None,
            verdict: Err(unlisted()),
        };
    };
    state.step(table, held, class)
}

pub(crate) fn line_from(
    strength: u64,
    table: &[u8],
    row: u64,
    before: &[u8],
    class: u64,
) -> LineStep
    ensures { result ≡ line_from strength table.now row before.now class }
{
    line_for(strength, table, line_state(row, before), code(class))
}

pub(crate) fn tell_line(row: u64, s: LineStep, results: &mut [u64]) -> u64
    ensures { Stepped (line_judged row s) (line_given row) (line_after s) results.old result results.new }
{
    let own = s.verdict;
    let verdict = judge(own, 255 < row);
    let n = numbered(verdict);
    let Ok(()) = verdict else {
        put(&[n.number, n.side, n.index, row, 0], results);
        return n.number;
    };
    let state = s.state;
    let answer = s.answer;
    put(
        &[
            n.number,
            n.side,
            n.index,
            state.row as u64,
            u8::from(answer) as u64,
        ],
        results,
    );
    n.number
}

fn next_for(
    strength: u64,
    table: &[u8],
    state: BoundaryState,
    line: u8,
    word: u8,
    pictograph: u8,
    next: Option<u8>,
) -> BoundaryStep
    ensures { result ≡ next_for (asked_by strength) table.now state line word pictograph next }
{
    let Some(held) = asked_by(strength) else {
        return BoundaryStep {
            state,
            answer: Boundary::None,
            verdict: Err(unlisted()),
        };
    };
    state.next(table, held, line, word, pictograph, next)
}

impl Given {
    pub(crate) fn next(
        self,
        strength: u64,
        table: &[u8],
        row: u64,
        before: &[u8],
        line: u64,
        word: u64,
        pictograph: u64,
        rest: &[u8],
    ) -> BoundaryStep
        ensures { result ≡ next_from strength table.now row before.now self line word pictograph rest.now }
    {
        let state = BoundaryState {
            line: line_state(row, before),
            word: self.state(),
        };
        next_for(
            strength,
            table,
            state,
            code(line),
            code(word),
            code(pictograph),
            next_in(rest),
        )
    }
}

fn is_bad_next(row: u64, g: Given) -> bool
    ensures { result ≡ bad_row row || bad_marks g }
{
    255 < row || g.is_bad()
}

pub(crate) fn tell_next(row: u64, g: Given, s: BoundaryStep, results: &mut [u64]) -> u64
    ensures { Stepped (next_judged row g s) (next_given row g) (next_after s) results.old result results.new }
{
    let own = s.verdict;
    let verdict = judge(own, is_bad_next(row, g));
    let n = numbered(verdict);
    let Ok(()) = verdict else {
        put(
            &[
                n.number, n.side, n.index, row, g.first, g.previous, g.prevent, g.count, 0,
            ],
            results,
        );
        return n.number;
    };
    let state = s.state;
    let line = state.line;
    let word = state.word;
    let answer = s.answer;
    put(
        &[
            n.number,
            n.side,
            n.index,
            line.row as u64,
            mark(word.first),
            word.previous as u64,
            mark(word.prevent),
            word.count as u64,
            u8::from(answer) as u64,
        ],
        results,
    );
    n.number
}
