// The exits of `check_word` in its order, and what each leaves behind.
#![tactic(auto, unfolding(crate::specs::Rules::pair_rules, crate::specs::Rules::letter_rules, crate::specs::Rules::number_rules, crate::specs::Rules::flag_rules, crate::specs::Rules::exit_of, crate::specs::Rules::leaves))]

ghost use Rattle.std.specs.Prelude.{◌≡◌};
ghost use Rattle.words.specs.Rules.{pair_rules, letter_rules, number_rules, flag_rules, exit_of, leaves, ruled};

use crate::rules::{
    is_by_newline, is_crlf, is_from_extender, is_hebrew_double, is_hebrew_single, is_katakana_run,
    is_letter_run, is_mid_letter, is_mid_number, is_number_run, is_space_run, is_to_extender,
    is_zwj_pictograph,
};
use crate::sets::is_ignorable;
use crate::{Exit, WordState, WordStep};
use classes::word_break;

pub fn pair_exit(a: u8, b: u8, pictograph: u8, next: Option<u8>, count: u8) -> Exit
    ensures { result ≡ pair_rules a b pictograph (letter_rules a b next (number_rules a b next (flag_rules a b count))) }
{
    if is_crlf(a, b) {
        Exit::Joined
    } else if is_by_newline(a, b) {
        Exit::Parted
    } else if is_zwj_pictograph(a, pictograph) {
        Exit::Joined
    } else if is_ignorable(b) {
        // WB4
        Exit::Ignored
    } else if is_space_run(a, b) {
        Exit::Joined
    } else {
        letter_exit(a, b, next, count)
    }
}

pub fn letter_exit(a: u8, b: u8, next: Option<u8>, count: u8) -> Exit
    ensures { result ≡ letter_rules a b next (number_rules a b next (flag_rules a b count)) }
{
    if is_letter_run(a, b) {
        Exit::Joined
    } else if is_mid_letter(a, b, next) {
        Exit::Held
    } else if is_hebrew_single(a, b) {
        Exit::Joined
    } else if is_hebrew_double(a, b, next) {
        Exit::Held
    } else {
        number_exit(a, b, next, count)
    }
}

pub fn number_exit(a: u8, b: u8, next: Option<u8>, count: u8) -> Exit
    ensures { result ≡ number_rules a b next (flag_rules a b count) }
{
    if is_number_run(a, b) {
        Exit::Joined
    } else if is_mid_number(a, b, next) {
        Exit::Held
    } else if is_katakana_run(a, b) || is_to_extender(a, b) || is_from_extender(a, b) {
        Exit::Joined
    } else {
        flag_exit(a, b, count)
    }
}

// WB15, WB16
pub fn flag_exit(a: u8, b: u8, count: u8) -> Exit
    ensures { result ≡ flag_rules a b count }
{
    if b != word_break::RI {
        Exit::Parted
    } else if count < 2 && a == word_break::RI {
        Exit::Paired(count + 1)
    } else {
        Exit::Opened
    }
}

pub fn told(previous: u8, prevent: bool, count: u8, answer: u8) -> WordStep
    ensures { result ≡ Rattle.words.specs.Rules.told previous prevent count answer }
{
    WordStep {
        state: WordState {
            first: false,
            previous,
            prevent,
            count,
        },
        answer,
        verdict: Ok(()),
    }
}

impl WordState {
    pub(crate) fn exit(self, class: u8, pictograph: u8, next: Option<u8>) -> Exit
        ensures { result ≡ exit_of self class pictograph next }
    {
        if self.first {
            Exit::Begun
        } else if self.prevent {
            Exit::Released
        } else {
            pair_exit(self.previous, class, pictograph, next, self.count)
        }
    }

    // Of a first record only RI sets the count.
    pub(crate) fn begun(self, class: u8) -> WordStep
        ensures { result ≡ leaves self class Exit.Begun }
    {
        let count = if class == word_break::RI {
            1
        } else {
            self.count
        };
        told(class, self.prevent, count, 1)
    }

    pub(crate) fn leave(self, class: u8, exit: Exit) -> WordStep
        ensures { result ≡ leaves self class exit }
    {
        match exit {
            Exit::Begun => self.begun(class),
            Exit::Released => told(class, false, self.count, 0),
            Exit::Joined => told(class, false, 0, 0),
            Exit::Parted => told(class, false, 0, 1),
            Exit::Ignored => told(self.previous, false, 0, 0),
            Exit::Held => told(class, true, 0, 0),
            Exit::Opened => told(class, false, 1, 1),
            Exit::Paired(count) => told(class, false, count, 0),
        }
    }

    // One call of `check_word`, on a record and a state that are not judged here.
    pub(crate) fn rule(self, class: u8, pictograph: u8, next: Option<u8>) -> WordStep
        ensures { result ≡ ruled self class pictograph next }
    {
        self.leave(class, self.exit(class, pictograph, next))
    }
}
