// The step of `next`: its refusals, and the two answers as one.
#![tactic(auto, unfolding(crate::specs::NextStep::next_verdict))]

ghost use Rattle.std.specs.Prelude.{◌≡◌};
ghost use Rattle.lines.specs.Rules.{or_word};
ghost use Rattle.lines.specs.NextStep.{bad_record, bad_states, next_verdict};

use crate::judge::judge_step;
use crate::{Boundary, BoundaryState, line_break};
use classes::word_break;
use records::{Refusal, is_bad_three};
use words::is_bad_next;

// A class or a mark outside its list, of the record or of the next one.
fn is_bad_step(line: u8, word: u8, pictograph: u8, next: Option<u8>) -> bool
    ensures { result ≡ bad_record line word pictograph next }
{
    is_bad_three(line_break::LEN, word_break::LEN, line, word, pictograph) || is_bad_next(next)
}

// The line answer, and word where that is none and the word machine's answer is 1.
pub(crate) fn or_word(line: Boundary, word: u8) -> Boundary
    ensures { result ≡ or_word line word }
{
    match line {
        Boundary::None if word == 1 => Boundary::Word,
        _ => line,
    }
}

impl BoundaryState {
    fn is_bad(self, table: &[u8]) -> bool
        ensures { result ≡ bad_states table.now self }
    {
        self.line.is_bad(table) || self.word.is_bad()
    }

    pub(crate) fn judge(
        self,
        table: &[u8],
        line: u8,
        word: u8,
        pictograph: u8,
        next: Option<u8>,
    ) -> Result<(), Refusal>
        ensures { result ≡ next_verdict table.now self line word pictograph next }
    {
        judge_step(
            table,
            is_bad_step(line, word, pictograph, next),
            self.is_bad(table),
        )
    }
}
