// The word machine: `check_word` of src/text/analyze.rs as one step with its refusals, and as a run over lent columns.
#![tactic(auto)]

mod exits;
mod judge;
mod rows;
mod rules;
mod sets;
mod table;

ghost use Rattle.std.specs.Prelude.{◌≡◌, length};
ghost use Rattle.words.specs.Step.{start_state, step_of};
ghost use Rattle.words.specs.Run.{run_verdict, run_cells};

use classes::word_break;
pub use judge::is_bad_next;
use records::{Refusal, check_words, judge_room};
use rows::write_answers;

// What the machine keeps between two records: whether none came yet, the class before, whether the next record has no boundary before
// it, and the count of RI, 0 to 2. Every value is allowed, and the step refuses those that no run has.
#[derive(Clone, Copy, Debug, PartialEq, Eq)]
pub struct WordState {
    pub first: bool,
    pub previous: u8,
    pub prevent: bool,
    pub count: u8,
}

// What a step hands back: the new state, the answer (1 where a word boundary stands before the record) and the verdict.
// With a refusal a step hands back the same state and the answer 0, which its contract says (5.4): so the verdict stands beside them, no Result.
#[derive(Clone, Copy, Debug, PartialEq, Eq)]
pub struct WordStep {
    pub state: WordState,
    pub answer: u8,
    pub verdict: Result<(), Refusal>,
}

// How `check_word` is left.
#[derive(Clone, Copy, Debug, PartialEq, Eq)]
pub enum Exit {
    // The text's first record.
    Begun,
    // The record after a held one.
    Released,
    // No boundary.
    Joined,
    // A boundary.
    Parted,
    // No boundary, and the class before stays.
    Ignored,
    // No boundary, and none before the next record.
    Held,
    // A boundary before an RI, which is the first of a pair.
    Opened,
    // No boundary between two RI; the new count.
    Paired(u8),
}

impl WordState {
    pub const START: WordState = WordState {
        first: true,
        previous: word_break::Other,
        prevent: false,
        count: 0,
    };

    // `START` is the start state of the definitions.
    pub fn start() -> WordState
        ensures { result ≡ start_state }
    {
        WordState::START
    }

    // One record: the state after it and its answer, or a refusal with the same state and the answer 0.
    pub fn step(self, class: u8, pictograph: u8, next: Option<u8>) -> WordStep
        ensures { result ≡ step_of self class pictograph next }
    {
        match self.judge(class, pictograph, next) {
            Ok(()) => self.rule(class, pictograph, next),
            Err(refusal) => WordStep {
                state: self,
                answer: 0,
                verdict: Err(refusal),
            },
        }
    }
}

// The answers to a whole text, one cell a record.
#[tactic(auto, unfolding(crate::specs::Run::run_verdict))]
pub fn run(words: &[u8], pictographs: &[u8], out: &mut [u8]) -> Result<(), Refusal>
    ensures value { result ≡ run_verdict words.now pictographs.now (length out.old) }
    ensures out_after { out.new ≡ run_cells words.now pictographs.now out.old }
{
    judge_room(check_words(words, pictographs), words.len(), out.len())?;
    write_answers(words, pictographs, out);
    Ok(())
}
