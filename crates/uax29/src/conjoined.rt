// GB9c of Unicode 15.1 over lent columns: by looking back from a place, and in a pass that goes forward.
ghost use Rattle.std.specs.Prelude.{◌≡◌, cond, ◌++◌, ◌≤◌, ◌-◌, length, drop};
ghost use Rattle.basics.specs.Columns.{cells};
ghost use Rattle.records.specs.Text.{cell};
ghost use Rattle.uax29.specs.Conjoined.{begun_at, linked_at, conjoins, conjoined_at, taken_at};
ghost use Rattle.uax29.specs.EditionStep.{link_after, bad_link};

use crate::conjunct::*;
use crate::kept::is_control;
use classes::cluster_break;
use records::cells::cell;

// Whether a consonant and then extenders and linkers stand before a place.
fn is_begun(conjuncts: &[u8], at: usize) -> bool
    ensures { result ≡ begun_at conjuncts.now at }
{
    for i in (0..at).rev() {
        match cell(conjuncts, i, 0) {
            Consonant => return true,
            Extend | Linker => {}
            _ => return false,
        }
    }
    false
}

// Whether a linker is among them: the nearest decides.
fn is_linked(conjuncts: &[u8], at: usize) -> bool
    ensures { result ≡ linked_at conjuncts.now at }
{
    for i in (0..at).rev() {
        match cell(conjuncts, i, 0) {
            Linker => return is_begun(conjuncts, i),
            Extend => {}
            _ => return false,
        }
    }
    false
}

// Whether GB9c takes away a start at a record: its conjunct code and its class b, with the class a before it (no control: GB4 and GB5).
#[tactic(auto, unfolding(crate::specs::Conjoined::conjoins))]
pub(crate) fn is_joined(linked: bool, conjunct: u8, a: u8, b: u8) -> bool
    ensures { result ≡ conjoins linked conjunct a b }
{
    linked && conjunct == Consonant && !is_control(a) && !is_control(b)
}

// The class before a record; the first has none, and none is asked for there.
fn class_before(breaks: &[u8], at: usize) -> u8
    ensures { result ≡ cell breaks.now (at - 1) }
{
    // a branch, not a minimum, so that the machine code of `take_starts` asks this of its first turn alone
    if at == 0 {
        cell(breaks, 0, 0)
    } else {
        cell(breaks, at - 1, 0)
    }
}

// The same at a place, by looking back: from a consonant alone, so that a run of extenders and linkers is gone over once.
#[tactic(auto, using(crate::proofs::Links::no_consonant), unfolding(crate::specs::Conjoined::conjoined_at))]
pub(crate) fn is_conjoined(breaks: &[u8], conjuncts: &[u8], at: usize) -> bool
    ensures { result ≡ conjoined_at breaks.now conjuncts.now at }
{
    let conjunct = cell(conjuncts, at, 0);
    conjunct == Consonant
        && is_joined(
            is_linked(conjuncts, at),
            conjunct,
            class_before(breaks, at),
            cell(breaks, at, 0),
        )
}

// What GB9c needs to know of the records before a place: whether a consonant and then extenders and linkers stand there, and whether a
// linker is among them.
#[derive(Clone, Copy, Debug, PartialEq, Eq)]
pub struct Link {
    pub begun: bool,
    pub linked: bool,
}

impl Link {
    pub const NONE: Link = Link {
        begun: false,
        linked: false,
    };

    // Whether no text leads to it: a linker without a consonant, or a consonant before the first record.
    pub(crate) fn is_bad(self, previous: u8) -> bool
        ensures { result ≡ bad_link self previous }
    {
        if self.begun {
            previous == cluster_break::LEN
        } else {
            self.linked
        }
    }

    #[tactic(auto, unfolding(crate::specs::EditionStep::link_after))]
    pub(crate) fn after(self, conjunct: u8) -> Link
        ensures { result ≡ link_after self conjunct }
    {
        match conjunct {
            Consonant => Link {
                begun: true,
                linked: false,
            },
            Linker => Link {
                linked: self.begun || self.linked,
                ..self
            },
            Extend => self,
            _ => Link::NONE,
        }
    }
}

// Takes away the starts that GB9c does, in one pass that goes forward.
pub(crate) fn take_starts(breaks: &[u8], conjuncts: &[u8], out: &mut [u8])
    requires { length breaks.now ≤ length out.old }
    ensures { out.new ≡ cells (taken_at breaks.now conjuncts.now out.old) (length breaks.now) ++ drop (length breaks.now) out.old }
{
    let mut link = Link::NONE;
    for i in 0..breaks.len() {
        let conjunct = cell(conjuncts, i, 0);
        out[i] = taken(
            is_joined(link.linked, conjunct, class_before(breaks, i), breaks[i]),
            out[i],
        );
        link = link.after(conjunct);
    }
}

pub(crate) fn taken(joined: bool, answer: u8) -> u8
    ensures { result ≡ cond joined 0 answer }
{
    if joined { 0 } else { answer }
}
