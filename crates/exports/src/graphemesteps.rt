// The forward step over UAX #29's clusters, over a state of any numbers.
ghost use Rattle.std.specs.Prelude.{◌≡◌};
ghost use Rattle.exports.specs.States.{Stepped};
ghost use Rattle.exports.specs.Graphemes.{kept_of, bad_kept, grapheme_from, grapheme_judged, grapheme_after, grapheme_given};

use crate::Kept;
use crate::results::{mark, numbered, put};
use crate::states::{code, judge};
use uax29::graphemes::{GraphemeState, GraphemeStep};

impl Kept {
    pub(crate) fn state(self) -> GraphemeState
        ensures { result ≡ kept_of self }
    {
        GraphemeState {
            previous: code(self.previous),
            odd: self.odd == 1,
            extended: self.extended == 1,
            joined: self.joined == 1,
        }
    }

    pub(crate) fn step(self, class: u64, emoji: u64) -> GraphemeStep
        ensures { result ≡ grapheme_from self class emoji }
    {
        self.state().step(code(class), code(emoji))
    }

    // A mark that is neither 0 nor 1.
    pub(crate) fn is_bad(self) -> bool
        ensures { result ≡ bad_kept self }
    {
        1 < self.odd || 1 < self.extended || 1 < self.joined
    }
}

pub(crate) fn tell_grapheme(k: Kept, s: GraphemeStep, results: &mut [u64]) -> u64
    ensures { Stepped (grapheme_judged k s) (grapheme_given k) (grapheme_after s) results.old result results.new }
{
    let own = s.verdict;
    let verdict = judge(own, k.is_bad());
    let n = numbered(verdict);
    let Ok(()) = verdict else {
        put(
            &[
                n.number, n.side, n.index, k.previous, k.odd, k.extended, k.joined, 0,
            ],
            results,
        );
        return n.number;
    };
    let state = s.state;
    put(
        &[
            n.number,
            n.side,
            n.index,
            state.previous as u64,
            mark(state.odd),
            mark(state.extended),
            mark(state.joined),
            s.answer as u64,
        ],
        results,
    );
    n.number
}
