// What a parser asks of the current token. Where the call does not go on there is none to be taken, and every answer is no.
ghost use Rattle.std.specs.Prelude.{◌≡◌};
ghost use Rattle.parse.specs.State.{token_at as token_in};
ghost use Rattle.parse.specs.Rule.{holds, crowded, is, next_is, is_break, is_scalar, is_emoji, is_selector, one_of, kind_here};

use crate::Parse;
use crate::state::{last_room, token_after, token_at};

impl Parse {
    // The current token, or 0 where there is none.
    pub(crate) fn current(self, text: &[u64]) -> u64
        ensures { result ≡ token_in text.now self.at }
    {
        token_at(text, self.at)
    }

    // The current token's kind, or 64, which is none.
    pub fn kind(self, text: &[u64]) -> u8
        ensures { result ≡ kind_here text.now self }
    {
        if self.going() {
            token::kind(self.current(text))
        } else {
            64
        }
    }

    pub fn kind_is(self, text: &[u64], kind: u8) -> bool
        ensures { result ≡ holds text.now (is kind) self }
    {
        self.going() && token::kind(self.current(text)) == kind
    }

    pub fn kind_in<const N: usize>(self, text: &[u64], kinds: [u8; N]) -> bool
        ensures { result ≡ holds text.now (one_of kinds.entry) self }
    {
        self.going() && kinds.contains(&token::kind(self.current(text)))
    }

    pub fn break_is(self, text: &[u64], class: u8) -> bool
        ensures { result ≡ holds text.now (is_break class) self }
    {
        self.going() && token::break_class(self.current(text)) == class
    }

    pub fn scalar_is(self, text: &[u64], scalar: u32) -> bool
        ensures { result ≡ holds text.now (is_scalar scalar) self }
    {
        self.going() && token::scalar(self.current(text)) == scalar
    }

    pub fn emoji(self, text: &[u64]) -> bool
        ensures { result ≡ holds text.now is_emoji self }
    {
        self.going() && token::emoji(self.current(text)) == 1
    }

    // `is_variation_selector`.
    pub fn selector(self, text: &[u64]) -> bool
        ensures { result ≡ holds text.now is_selector self }
    {
        self.going() && token::selector(self.current(text)) == 1
    }

    // Whether there is no room for the current token and the next, which is of the kind that belongs to it.
    pub(crate) fn is_crowded(self, text: &[u64], kind: u8) -> bool
        ensures { result ≡ crowded text.now (next_is kind) self }
    {
        last_room(self.mode, self.len) && token::kind(token_after(text, self.at)) == kind
    }
}
