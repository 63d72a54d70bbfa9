// The forward step by an edition of UAX #29, over a state of any numbers.
ghost use Rattle.std.specs.Prelude.{◌≡◌};
ghost use Rattle.exports.specs.States.{Stepped};
ghost use Rattle.exports.specs.Editions.{kept_in_of, bad_kept_in, edition_from, edition_judged, edition_after, edition_given};

use crate::KeptIn;
use crate::results::{mark, numbered, put};
use crate::states::{code, judge};
use uax29::conjoined::Link;
use uax29::editions::{EditionState, EditionStep};

impl KeptIn {
    pub(crate) fn state(self) -> EditionState
        ensures { result ≡ kept_in_of self }
    {
        EditionState {
            graphemes: self.kept.state(),
            link: Link {
                begun: self.begun == 1,
                linked: self.linked == 1,
            },
        }
    }

    pub(crate) fn step(self, edition: u64, class: u64, emoji: u64, conjunct: u64) -> EditionStep
        ensures { result ≡ edition_from edition self class emoji conjunct }
    {
        self.state()
            .step(edition, code(class), code(emoji), code(conjunct))
    }

    // A mark that is neither 0 nor 1.
    pub(crate) fn is_bad(self) -> bool
        ensures { result ≡ bad_kept_in self }
    {
        self.kept.is_bad() || 1 < self.begun || 1 < self.linked
    }
}

pub(crate) fn tell_edition(k: KeptIn, s: EditionStep, results: &mut [u64]) -> u64
    ensures { Stepped (edition_judged k s) (edition_given k) (edition_after s) results.old result results.new }
{
    let own = s.verdict;
    let verdict = judge(own, k.is_bad());
    let n = numbered(verdict);
    let Ok(()) = verdict else {
        let kept = k.kept;
        put(
            &[
                n.number,
                n.side,
                n.index,
                kept.previous,
                kept.odd,
                kept.extended,
                kept.joined,
                k.begun,
                k.linked,
                0,
            ],
            results,
        );
        return n.number;
    };
    let state = s.state;
    let graphemes = state.graphemes;
    let link = state.link;
    put(
        &[
            n.number,
            n.side,
            n.index,
            graphemes.previous as u64,
            mark(graphemes.odd),
            mark(graphemes.extended),
            mark(graphemes.joined),
            mark(link.begun),
            mark(link.linked),
            s.answer as u64,
        ],
        results,
    );
    n.number
}
