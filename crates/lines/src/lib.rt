// The line machine: `check_line` of src/text/analyze.rs over a lent table, as one step with its refusals, and the run of `next`,
// which merges its answers with those of the word machine.
#![tactic(auto)]

mod judge;
pub mod line_break;
mod next;
pub mod pair_table;
mod rules;
mod runs;
mod sweeps;

ghost use Rattle.std.specs.Prelude.{◌≡◌, length};
ghost use Rattle.lines.specs.Rules.{boundary_code, strength_code, start_state};
ghost use Rattle.lines.specs.Refusals.{step_of};
ghost use Rattle.lines.specs.NextStep;
ghost use Rattle.lines.specs.NextStep.{next_of};
ghost use Rattle.lines.specs.Run.{run_verdict, run_cells};

use next::or_word;
use records::{Refusal, judge_room};
use runs::{check, lay};
use words::WordState;

// How strongly words hold together, the Rust's `WordBreakStrength`.
#[derive(Clone, Copy, Debug, PartialEq, Eq)]
pub enum Strength {
    Normal,
    BreakAll,
    KeepAll,
}

// What stands before a record, the Rust's `Boundary`.
#[derive(Clone, Copy, Debug, PartialEq, Eq)]
pub enum Boundary {
    None,
    Word,
    Line,
    Mandatory,
}

// What the machine keeps between two records. Every value is allowed, and the step refuses those that its table has not.
#[derive(Clone, Copy, Debug, PartialEq, Eq)]
pub struct LineState {
    pub row: u8,
    // The class of the record before, or none at the start of the text.
    pub previous: Option<u8>,
}

// What a step hands back: the new state, the answer, and the verdict.
// With a refusal a step hands back the same state and the answer none, which its contract says (5.4): so the verdict stands beside them, no Result.
#[derive(Clone, Copy, Debug, PartialEq, Eq)]
pub struct LineStep {
    pub state: LineState,
    pub answer: Boundary,
    pub verdict: Result<(), Refusal>,
}

// Both machines, the Rust's `BoundaryState`.
#[derive(Clone, Copy, Debug, PartialEq, Eq)]
pub struct BoundaryState {
    pub line: LineState,
    pub word: WordState,
}

// What a step of `next` hands back: a refusal leaves the state and the answer as `LineStep` has it.
#[derive(Clone, Copy, Debug, PartialEq, Eq)]
pub struct BoundaryStep {
    pub state: BoundaryState,
    pub answer: Boundary,
    pub verdict: Result<(), Refusal>,
}

// The number by which a caller asks for the strength.
impl From<Strength> for u8 {
    ghost from_gives = { λ strength code. code ≡ strength_code strength };

    fn from(strength: Strength) -> u8 {
        match strength {
            Strength::Normal => 0,
            Strength::BreakAll => 1,
            Strength::KeepAll => 2,
        }
    }
}

// The number that a run writes for the boundary.
impl From<Boundary> for u8 {
    ghost from_gives = { λ boundary code. code ≡ boundary_code boundary };

    fn from(boundary: Boundary) -> u8 {
        match boundary {
            Boundary::None => 0,
            Boundary::Word => 1,
            Boundary::Line => 2,
            Boundary::Mandatory => 3,
        }
    }
}

impl LineState {
    pub const START: LineState = LineState {
        row: 44,
        previous: None,
    };

    // `START` is the start state of the definitions.
    pub fn start() -> LineState
        ensures { result ≡ start_state }
    {
        LineState::START
    }

    // One record: the state after it and its answer, or a refusal with the same state and the answer none.
    pub fn step(self, table: &[u8], strength: Strength, class: u8) -> LineStep
        ensures { result ≡ step_of strength table.now self class }
    {
        match self.judge(table, class) {
            Ok(()) => LineStep {
                state: self.after(table, class),
                answer: self.answer(table, strength, class),
                verdict: Ok(()),
            },
            Err(refusal) => LineStep {
                state: self,
                answer: Boundary::None,
                verdict: Err(refusal),
            },
        }
    }
}

impl BoundaryState {
    pub const START: BoundaryState = BoundaryState {
        line: LineState::START,
        word: WordState::START,
    };

    // `START` is the start state of the definitions.
    pub fn start() -> BoundaryState
        ensures { result ≡ NextStep.start_state }
    {
        BoundaryState::START
    }

    // One record: its line class, word class and pictograph mark, and the word class of the record after it. The states after it and
    // its answer, or a refusal with the same states and the answer none.
    pub fn next(
        self,
        table: &[u8],
        strength: Strength,
        line: u8,
        word: u8,
        pictograph: u8,
        next: Option<u8>,
    ) -> BoundaryStep
        ensures { result ≡ next_of strength table.now self line word pictograph next }
    {
        match self.judge(table, line, word, pictograph, next) {
            Ok(()) => {
                let word = self.word.step(word, pictograph, next);
                BoundaryStep {
                    state: BoundaryState {
                        line: self.line.after(table, line),
                        word: word.state,
                    },
                    answer: or_word(self.line.answer(table, strength, line), word.answer),
                    verdict: Ok(()),
                }
            }
            Err(refusal) => BoundaryStep {
                state: self,
                answer: Boundary::None,
                verdict: Err(refusal),
            },
        }
    }
}

#[tactic(auto, unfolding(crate::specs::Run::run_verdict))]
// The answers to a whole text, one cell a record: 0 none, 1 word, 2 line, 3 mandatory.
pub fn run(
    table: &[u8],
    strength: Strength,
    lines: &[u8],
    words: &[u8],
    pictographs: &[u8],
    out: &mut [u8],
) -> Result<(), Refusal>
    ensures value { result ≡ run_verdict table.now lines.now words.now pictographs.now (length out.old) }
    ensures out_after { out.new ≡ run_cells strength table.now lines.now words.now pictographs.now out.old }
{
    judge_room(
        check(table, lines, words, pictographs),
        lines.len(),
        out.len(),
    )?;
    words::run(words, pictographs, out)?;
    lay(table, strength, lines, out);
    Ok(())
}
