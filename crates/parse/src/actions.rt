// The small functions of the three Rust parsers. Each does what its rule says, and nothing where the call does not go on.
#![tactic(auto, unfolding(crate::specs::Rule::run, crate::specs::Rule::thrice_of, crate::specs::State::note_of))]

ghost use Rattle.std.specs.Prelude.{◌≡◌};
ghost use Rattle.parse.specs.Rule.{run, take, note, mark, accept_as, many_as, many, set_broken, set_emoji, set_space, set_space_from_char, force_normalize};

use crate::{Emoji, Flow, Parse, Space};
use classes::Shape;

impl Parse {
    // Kept whole in the machine code, so that no other frame has the places of a push.
    #[inline(never)]
    pub fn accept_any_as(self, text: &[u64], class: Shape) -> Parse
        ensures { result ≡ run (take class) text.now self }
    {
        if self.going() {
            self.push(text, class)
        } else {
            self
        }
    }

    pub fn accept_as(self, text: &[u64], kind: u8, class: Shape) -> Parse
        ensures { result ≡ run (accept_as kind class) text.now self }
    {
        if self.kind_is(text, kind) {
            self.accept_any_as(text, class)
        } else {
            self
        }
    }

    pub fn accept(self, text: &[u64], kind: u8) -> Parse
        ensures { result ≡ run (Rattle.parse.specs.Rule.accept kind) text.now self }
    {
        self.accept_as(text, kind, Shape::Other)
    }

    pub fn accept_zero_or_many_as(mut self, text: &[u64], kind: u8, class: Shape) -> Parse
        ensures { result ≡ run (many_as kind class) text.now self }
    {
        while self.kind_is(text, kind) {
            self = self.accept_any_as(text, class);
        }
        self
    }

    pub fn accept_zero_or_many(self, text: &[u64], kind: u8) -> Parse
        ensures { result ≡ run (many kind) text.now self }
    {
        self.accept_zero_or_many_as(text, kind, Shape::Other)
    }

    // `note_char`, and the step behind it.
    pub fn note_char(mut self, text: &[u64]) -> Parse
        ensures { result ≡ run note text.now self }
    {
        if self.going() {
            self = self.noted(self.current(text));
            self = self.step(text);
        }
        self
    }

    // Kinzi: the current token and two more; in crate mode the end of the text is passed over, repeat (b).
    pub fn thrice(mut self, text: &[u64], class: Shape) -> Parse
        ensures { result ≡ run (Rattle.parse.specs.Rule.thrice class) text.now self }
    {
        if self.going() {
            self = self.accept_any_as(text, class);
            self = self.accept_any_as(text, class);
            self = self.accept_any_as(text, class);
            self = self.retried();
        }
        self
    }

    // The scope around is done, or else the cluster.
    pub fn stop(mut self, text: &[u64]) -> Parse
        ensures { result ≡ run Rattle.parse.specs.Rule.stop text.now self }
    {
        if self.going() {
            self.flow = Flow::Stop;
        }
        self
    }

    pub fn set_broken(mut self, text: &[u64]) -> Parse
        ensures { result ≡ run (mark set_broken) text.now self }
    {
        if self.going() {
            self.info.broken = true;
        }
        self
    }

    pub fn set_emoji(mut self, text: &[u64], emoji: Emoji) -> Parse
        ensures { result ≡ run (mark (set_emoji emoji)) text.now self }
    {
        if self.going() {
            self.info.emoji = emoji;
        }
        self
    }

    pub fn set_space(mut self, text: &[u64], space: Space) -> Parse
        ensures { result ≡ run (mark (set_space space)) text.now self }
    {
        if self.going() {
            self.info.space = space;
        }
        self
    }

    // The space is from the current token's scalar.
    pub fn set_space_from_char(self, text: &[u64]) -> Parse
        ensures { result ≡ run (mark set_space_from_char) text.now self }
    {
        self.set_space(text, Space::From(token::scalar(self.current(text))))
    }

    pub fn force_normalize(mut self, text: &[u64]) -> Parse
        ensures { result ≡ run (mark force_normalize) text.now self }
    {
        if self.going() {
            self.info.normalise = true;
        }
        self
    }
}
