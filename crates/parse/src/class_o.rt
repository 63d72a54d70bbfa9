// The arm for class O, which stands in the Myanmar and in the complex parser of the Rust.
#![tactic(auto, unfolding(crate::specs::Rule::run, crate::specs::Shared::newline, crate::specs::Shared::newline_with, crate::specs::Shared::other_arm))]

ghost use Rattle.std.specs.Prelude.{◌≡◌};
ghost use Rattle.parse.specs.Rule.{run, push};
ghost use Rattle.parse.specs.Shared.{other_class, newline, newline_with, other_arm};

use crate::{Parse, Space};
use classes::{Shape, category, scalar};

// The class of a character of class O, by its category.
fn other_class(t: u64) -> Shape
    ensures { result ≡ other_class t }
{
    match token::category(t) {
        category::Format => match token::scalar(t) {
            scalar::ZWNJ => Shape::Zwnj,
            scalar::ZWJ => Shape::Zwj,
            _ => Shape::Control,
        },
        category::Control => Shape::Control,
        _ => Shape::Base,
    }
}

impl Parse {
    fn accept_any_other(self, text: &[u64]) -> Parse
        ensures { result ≡ run (push other_class) text.now self }
    {
        self.accept_any_as(text, other_class(self.current(text)))
    }

    pub fn parse_newline(self, text: &[u64]) -> Parse
        ensures { result ≡ run newline text.now self }
    {
        self.set_space(text, Space::Newline)
            .accept_any_as(text, Shape::Control)
    }

    // A newline that the next token belongs to, where that is of a kind; without room for both it is left to the next cluster.
    pub fn parse_newline_with(self, text: &[u64], kind: u8) -> Parse
        ensures { result ≡ run (newline_with kind) text.now self }
    {
        if self.is_crowded(text, kind) {
            self.stop(text)
        } else {
            self.parse_newline(text)
        }
    }

    // The arm `O`: CR with an LF, LF, or any other, by its category.
    pub fn parse_other(mut self, text: &[u64]) -> Parse
        ensures { result ≡ run other_arm text.now self }
    {
        if self.scalar_is(text, scalar::CR) {
            self = self.parse_newline(text);
            if self.scalar_is(text, scalar::LF) {
                self = self.accept_any_as(text, Shape::Control);
            }
        } else if self.scalar_is(text, scalar::LF) {
            self = self.parse_newline(text);
        } else {
            self = self.set_space_from_char(text);
            self = self.accept_any_other(text);
        }
        self
    }
}
