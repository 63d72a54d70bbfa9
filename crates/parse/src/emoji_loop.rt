// The emoji loop, which stands in each of the three Rust parsers. It goes by the cluster break in all of them.
#![tactic(auto, unfolding(crate::specs::Rule::run, crate::specs::Shared::emoji_mark, crate::specs::Shared::emoji_extension, crate::specs::Shared::emojis))]

ghost use Rattle.std.specs.Prelude.{◌≡◌};
ghost use Rattle.parse.specs.Rule.{run};
ghost use Rattle.parse.specs.Shared.{emoji_mark, emoji_extension, emojis};

use crate::{Emoji, Parse};
use classes::{Shape, cluster_break, scalar};

impl Parse {
    // One EX of an extension.
    fn parse_emoji_mark(mut self, text: &[u64]) -> Parse
        ensures { result ≡ run emoji_mark text.now self }
    {
        if self.scalar_is(text, scalar::ZWNJ) {
            self = self.accept_any_as(text, Shape::Zwnj);
        } else if self.scalar_is(text, scalar::VS16) {
            self = self.set_emoji(text, Emoji::Color);
            self = self.note_char(text);
        } else if self.scalar_is(text, scalar::VS15) {
            self = self.set_emoji(text, Emoji::Text);
            self = self.note_char(text);
        } else {
            self = self.accept_any_as(text, Shape::Mark);
        }
        self
    }

    // The Rust's answer false is a stop here.
    pub fn parse_emoji_extension(mut self, text: &[u64]) -> Parse
        ensures { result ≡ run emoji_extension text.now self }
    {
        while self.break_is(text, cluster_break::EX) {
            self = self.parse_emoji_mark(text);
        }
        if self.break_is(text, cluster_break::ZWJ) {
            self = self.accept_any_as(text, Shape::Zwj);
        } else {
            self = self.stop(text);
        }
        self
    }

    // `if self.emoji()`, all that it does: the loop is a scope, so that a stop ends it alone.
    pub fn parse_emoji(mut self, text: &[u64]) -> Parse
        ensures { result ≡ run emojis text.now self }
    {
        self = self.set_emoji(text, Emoji::Default);
        if self.going() {
            while self.emoji(text) {
                self = self.accept_any_as(text, Shape::Base);
                self = self.parse_emoji_extension(text);
            }
            self = self.resumed();
        }
        self
    }
}
