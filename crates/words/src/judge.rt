// The refusals of the word step.
#![tactic(auto, unfolding(crate::specs::Step::step_verdict))]

ghost use Rattle.std.specs.Prelude.{◌≡◌};
ghost use Rattle.records.specs.Refusals.{outside};
ghost use Rattle.words.specs.Step.{next_codes, bad_record, bad_state, step_verdict};

use crate::WordState;
use classes::word_break;
use records::{Refusal, Side, is_outside, refused};

// A class or a mark outside its list: a mark is 0 or 1.
pub fn is_bad_record(class: u8, pictograph: u8, next: Option<u8>) -> bool
    ensures { result ≡ bad_record class pictograph next }
{
    is_outside(class, word_break::LEN) || is_outside(pictograph, 2) || is_bad_next(next)
}

// Whether there is a next record, with a class outside the list.
pub fn is_bad_next(next: Option<u8>) -> bool
    ensures { result ≡ outside (next_codes next) }
{
    next.is_some_and(|class| is_outside(class, word_break::LEN))
}

impl WordState {
    // Whether no run has the state: the step refuses it.
    pub fn is_bad(self) -> bool
        ensures { result ≡ bad_state self }
    {
        is_outside(self.previous, word_break::LEN) || 2 < self.count
    }

    pub(crate) fn judge(self, class: u8, pictograph: u8, next: Option<u8>) -> Result<(), Refusal>
        ensures { result ≡ step_verdict self class pictograph next }
    {
        if is_bad_record(class, pictograph, next) {
            return refused(4, Side::Record, 0);
        }
        if self.is_bad() {
            return refused(8, Side::Neither, 0);
        }
        Ok(())
    }
}
