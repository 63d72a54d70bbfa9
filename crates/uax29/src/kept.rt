// The step of the engine that goes forward: its refusals, the state behind a record, and the rules asked of the state. a is the class
// before, b the record's own.
ghost use Rattle.std.specs.Prelude.{◌≡◌, ◌&&◌, not, [], ◌∷◌, eqb};
ghost use Rattle.basics.specs.Sets.{member};
ghost use Rattle.classes.specs.ClusterBreak as ClusterBreak;
ghost use Rattle.uax29.specs.Clusters.{controls};
ghost use Rattle.uax29.specs.GraphemeStep.{item, bad_state, advance, starts, step_verdict};
ghost use Rattle.uax29.specs.GraphemeKept.{from_GB3, from_GB6};

use crate::graphemes::GraphemeState;
use classes::cluster_break::*;
use records::{Refusal, Side, is_bad_marked, refused};

// GB3
fn is_crlf(a: u8, b: u8) -> bool
    ensures { result ≡ (eqb a ClusterBreak.CR && eqb b ClusterBreak.LF) }
{
    a == CR && b == LF
}

// GB4, GB5
pub(crate) fn is_control(class: u8) -> bool
    ensures { result ≡ member controls class }
{
    matches!(class, CN | CR | LF)
}

// The right side of GB6.
fn is_behind_leading(b: u8) -> bool
    ensures { result ≡ member (ClusterBreak.L ∷ ClusterBreak.«V» ∷ ClusterBreak.LV ∷ ClusterBreak.LVT ∷ []) b }
{
    matches!(b, L | V | LV | LVT)
}

// GB7
fn is_vowel_run(a: u8, b: u8) -> bool
    ensures { result ≡ (member (ClusterBreak.LV ∷ ClusterBreak.«V» ∷ []) a && member (ClusterBreak.«V» ∷ ClusterBreak.T ∷ []) b) }
{
    matches!(a, LV | V) && matches!(b, V | T)
}

// GB8
fn is_trailing_run(a: u8, b: u8) -> bool
    ensures { result ≡ (member (ClusterBreak.LVT ∷ ClusterBreak.T ∷ []) a && eqb b ClusterBreak.T) }
{
    matches!(a, LVT | T) && b == T
}

// GB9
fn is_extending(b: u8) -> bool
    ensures { result ≡ member (ClusterBreak.EX ∷ ClusterBreak.ZWJ ∷ []) b }
{
    matches!(b, EX | ZWJ)
}

impl GraphemeState {
    // Whether no text leads to the state: the step refuses it.
    pub(crate) fn is_bad(self) -> bool
        ensures { result ≡ bad_state self }
    {
        LEN < self.previous
            || self.odd && self.previous != RI
            || self.joined && self.previous != ZWJ
            || self.extended && self.previous == LEN
    }

    #[tactic(auto, unfolding(crate::specs::GraphemeStep::step_verdict))]
    pub(crate) fn judge(self, kind: u8, mark: u8) -> Result<(), Refusal>
        ensures { result ≡ step_verdict self kind mark }
    {
        if is_bad_marked(LEN, kind, mark) {
            return refused(4, Side::Record, 0);
        }
        if self.is_bad() {
            return refused(8, Side::Neither, 0);
        }
        Ok(())
    }

    // The state behind one more record.
    #[tactic(auto, unfolding(crate::specs::GraphemeStep::advance, crate::specs::Rules::is, crate::specs::Rules::pictographic))]
    pub(crate) fn after(self, kind: u8, mark: u8) -> GraphemeState
        ensures { result ≡ advance self (item kind mark) }
    {
        GraphemeState {
            previous: kind,
            // an odd number of RI ends with this record
            odd: kind == RI && !self.odd,
            // a pictograph and any number of Extend do
            extended: mark == 1 || kind == EX && self.extended,
            // they, and a ZWJ, do
            joined: kind == ZWJ && self.extended,
        }
    }

    // Whether a cluster starts at the record.
    #[tactic(auto, using(crate::proofs::GraphemeSummary::starts_chain))]
    pub(crate) fn is_start(self, kind: u8, mark: u8) -> bool
        ensures { result ≡ starts self (item kind mark) }
    {
        // GB1
        self.previous == LEN || self.from_gb3(kind, mark)
    }

    #[tactic(auto, unfolding(crate::specs::GraphemeKept::from_GB3))]
    fn from_gb3(self, b: u8, mark: u8) -> bool
        ensures { result ≡ from_GB3 self b mark }
    {
        // GB3
        if is_crlf(self.previous, b) {
            return false;
        }
        // GB4, GB5
        is_control(self.previous) || is_control(b) || !self.is_joined(b, mark)
    }

    // GB6 to GB13
    #[tactic(auto, unfolding(crate::specs::GraphemeKept::from_GB6, crate::specs::GraphemeKept::from_GB9, crate::specs::GraphemeKept::from_GB11))]
    fn is_joined(self, b: u8, mark: u8) -> bool
        ensures { result ≡ not (from_GB6 self b mark) }
    {
        self.previous == L && is_behind_leading(b)
            || is_vowel_run(self.previous, b)
            || is_trailing_run(self.previous, b)
            || is_extending(b)
            || b == SM
            || self.previous == PP
            || self.joined && mark == 1
            || self.odd && b == RI
    }
}
