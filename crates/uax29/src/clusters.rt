// GB1 to GB999 of UAX #29: a function for each rule, which says whether the rule applies at a place of two lent columns, the cluster
// breaks and the marks read as Extended_Pictographic.
#![tactic(auto, unfolding(crate::specs::Clusters::applies, crate::specs::Clusters::anything, crate::specs::Clusters::any, crate::specs::Clusters::GB1, crate::specs::Clusters::GB2, crate::specs::Clusters::GB3, crate::specs::Clusters::GB4, crate::specs::Clusters::GB5, crate::specs::Clusters::GB6, crate::specs::Clusters::GB7, crate::specs::Clusters::GB8, crate::specs::Clusters::GB9, crate::specs::Clusters::GB9a, crate::specs::Clusters::GB9b, crate::specs::Clusters::GB11, crate::specs::Clusters::GB12, crate::specs::Clusters::GB13, crate::specs::Clusters::GB999))]

ghost use Rattle.std.specs.Prelude.{◌≡◌, drop};
ghost use Rattle.classes.specs.ClusterBreak as ClusterBreak;
ghost use Rattle.uax29.specs.Clusters.{is, is_not, among, pictographic, edge, one, next, many, pairs, rules, applies, decide, boundary_at, GB1, GB2, GB3, GB4, GB5, GB6, GB7, GB8, GB9, GB9a, GB9b, GB11, GB12, GB13, GB999};
ghost use Rattle.uax29.specs.ClustersBack.{beyond, before, after, nearest};

use classes::cluster_break::*;
use records::cells::cell;

// Whether a boundary stands at a place: past the end there is no place.
pub fn boundary(breaks: &[u8], marks: &[u8], at: usize) -> bool
    ensures { result ≡ boundary_at breaks.now marks.now at }
{
    at <= breaks.len() && Place { breaks, marks, at }.is_boundary()
}

// A place of the two columns.
#[derive(Clone, Copy)]
struct Place<'a> {
    breaks: &'a [u8],
    marks: &'a [u8],
    at: usize,
}

impl<'a> Place<'a> {
    // The first rule that applies decides.
    #[tactic(auto, unfolding(crate::specs::Clusters::decide, crate::specs::Clusters::GB1, crate::specs::Clusters::GB2, crate::specs::Clusters::GB3, crate::specs::Clusters::GB4, crate::specs::Clusters::GB5, crate::specs::Clusters::GB6, crate::specs::Clusters::GB7, crate::specs::Clusters::GB8, crate::specs::Clusters::GB9, crate::specs::Clusters::GB9a, crate::specs::Clusters::GB9b, crate::specs::Clusters::GB11, crate::specs::Clusters::GB12, crate::specs::Clusters::GB13, crate::specs::Clusters::GB999))]
    fn is_boundary(&self) -> bool
        ensures { result ≡ decide rules (before self.now) (after self.now) }
    {
        if self.gb1() || self.gb2() {
            return true;
        }
        if self.gb3() {
            return false;
        }
        if self.gb4() || self.gb5() {
            return true;
        }
        if self.gb6() || self.gb7() || self.gb8() {
            return false;
        }
        if self.gb9() || self.gb9a() || self.gb9b() {
            return false;
        }
        if self.gb11() || self.gb12() || self.gb13() {
            return false;
        }
        self.gb999()
    }

    fn gb1(&self) -> bool
        ensures { result ≡ applies GB1 (before self.now) (after self.now) }
    {
        self.is_start() && !self.is_end()
    }

    fn gb2(&self) -> bool
        ensures { result ≡ applies GB2 (before self.now) (after self.now) }
    {
        !self.is_start() && self.is_end()
    }

    fn gb3(&self) -> bool
        ensures { result ≡ applies GB3 (before self.now) (after self.now) }
    {
        self.before_is(CR) && self.after_is(LF)
    }

    fn gb4(&self) -> bool
        ensures { result ≡ applies GB4 (before self.now) (after self.now) }
    {
        self.before_in(&[CN, CR, LF])
    }

    fn gb5(&self) -> bool
        ensures { result ≡ applies GB5 (before self.now) (after self.now) }
    {
        self.after_in(&[CN, CR, LF])
    }

    fn gb6(&self) -> bool
        ensures { result ≡ applies GB6 (before self.now) (after self.now) }
    {
        self.before_is(L) && self.after_in(&[L, V, LV, LVT])
    }

    fn gb7(&self) -> bool
        ensures { result ≡ applies GB7 (before self.now) (after self.now) }
    {
        self.before_in(&[LV, V]) && self.after_in(&[V, T])
    }

    fn gb8(&self) -> bool
        ensures { result ≡ applies GB8 (before self.now) (after self.now) }
    {
        self.before_in(&[LVT, T]) && self.after_is(T)
    }

    fn gb9(&self) -> bool
        ensures { result ≡ applies GB9 (before self.now) (after self.now) }
    {
        self.after_in(&[EX, ZWJ])
    }

    fn gb9a(&self) -> bool
        ensures { result ≡ applies GB9a (before self.now) (after self.now) }
    {
        self.after_is(SM)
    }

    fn gb9b(&self) -> bool
        ensures { result ≡ applies GB9b (before self.now) (after self.now) }
    {
        self.before_is(PP)
    }

    // Inlined, as are those below that say so: for a call the place would be written to memory, at each record.
    #[inline(always)]
    fn gb11(&self) -> bool
        ensures { result ≡ applies GB11 (before self.now) (after self.now) }
    {
        self.is_joiner_before() && self.is_pictograph_after()
    }

    // Inlined as gb11 is. What is at the place is asked first, here and in gb13: the look back is longer.
    #[inline(always)]
    fn gb12(&self) -> bool
        ensures { result ≡ applies GB12 (before self.now) (after self.now) }
    {
        self.after_is(RI) && self.is_half_flag_from_start()
    }

    // Inlined as gb11 is.
    #[inline(always)]
    fn gb13(&self) -> bool
        ensures { result ≡ applies GB13 (before self.now) (after self.now) }
    {
        self.after_is(RI) && self.is_half_flag_after_other()
    }

    fn gb999(&self) -> bool
        ensures { result ≡ applies GB999 (before self.now) (after self.now) }
    {
        !self.is_start() && !self.is_end()
    }

    // The class of the character before the place.
    #[tactic(auto, using(crate::proofs::ClustersSides::cells))]
    fn before(&self) -> Option<u8>
        ensures { result ≡ nearest (before self.now) }
    {
        if self.at == 0 {
            return None;
        }
        Some(cell(self.breaks, self.at - 1, 0))
    }

    // The class of the character at the place.
    #[tactic(auto, using(crate::proofs::ClustersSides::cells))]
    fn after(&self) -> Option<u8>
        ensures { result ≡ nearest (after self.now) }
    {
        self.breaks.get(self.at).copied()
    }

    // The character before the place is of this class.
    #[tactic(auto, using(crate::proofs::ClustersSides::kinds))]
    fn before_is(&self, kind: u8) -> bool
        ensures { result ≡ one (is kind) (before self.now) }
    {
        self.before() == Some(kind)
    }

    fn before_in(&self, kinds: &[u8]) -> bool
        ensures { result ≡ one (among kinds.now) (before self.now) }
    {
        self.before().is_some_and(|kind| kinds.contains(&kind))
    }

    // The character at the place is of this class.
    #[tactic(auto, using(crate::proofs::ClustersSides::kinds))]
    fn after_is(&self, kind: u8) -> bool
        ensures { result ≡ one (is kind) (after self.now) }
    {
        self.after() == Some(kind)
    }

    fn after_in(&self, kinds: &[u8]) -> bool
        ensures { result ≡ one (among kinds.now) (after self.now) }
    {
        self.after().is_some_and(|kind| kinds.contains(&kind))
    }

    #[tactic(auto, using(crate::proofs::ClustersSides::kinds))]
    fn is_start(&self) -> bool
        ensures { result ≡ edge (before self.now) }
    {
        self.before().is_none()
    }

    #[tactic(auto, using(crate::proofs::ClustersSides::kinds))]
    fn is_end(&self) -> bool
        ensures { result ≡ edge (after self.now) }
    {
        self.after().is_none()
    }

    // The place before the character before this one; the start is its own.
    #[tactic(auto, using(crate::proofs::ClustersSides::cells))]
    fn back(&self) -> Place<'a>
        ensures { before result ≡ drop 1 (before self.now) }
    {
        Place {
            at: self.at.saturating_sub(1),
            ..*self
        }
    }

    #[tactic(auto, using(crate::proofs::ClustersSides::cells))]
    fn is_pictograph_before(&self) -> bool
        ensures { result ≡ one pictographic (before self.now) }
    {
        self.at != 0 && cell(self.marks, self.at - 1, 0) == 1
    }

    #[tactic(auto, using(crate::proofs::ClustersSides::cells))]
    fn is_pictograph_after(&self) -> bool
        ensures { result ≡ one pictographic (after self.now) }
    {
        self.at < self.breaks.len() && cell(self.marks, self.at, 0) == 1
    }

    // The left side of GB11.
    #[tactic(auto, using(crate::proofs::ClustersSides::flags))]
    fn is_joiner_before(&self) -> bool
        ensures { result ≡ next (is ClusterBreak.ZWJ) (many (is ClusterBreak.EX) (one pictographic)) (before self.now) }
    {
        self.before_is(ZWJ) && self.back().is_extended_before()
    }

    // A pictograph and any number of Extend: a while, since the loop stops by what stands before the place.
    fn is_extended_before(&self) -> bool
        ensures { result ≡ many (is ClusterBreak.EX) (one pictographic) (before self.now) }
    {
        let mut place = *self;
        while place.before_is(EX) && !place.is_pictograph_before() {
            place.at -= 1;
        }
        place.is_pictograph_before()
    }

    // The left side of GB12. Inlined as gb11 is.
    #[tactic(auto, using(crate::proofs::ClustersSides::flags))]
    #[inline(always)]
    fn is_half_flag_from_start(&self) -> bool
        ensures { result ≡ next (is ClusterBreak.RI) (pairs (is ClusterBreak.RI) edge) (before self.now) }
    {
        self.before_is(RI) && self.back().beyond_flags().is_start()
    }

    // The left side of GB13. Inlined as gb11 is.
    #[tactic(auto, using(crate::proofs::ClustersSides::flags))]
    #[inline(always)]
    fn is_half_flag_after_other(&self) -> bool
        ensures { result ≡ next (is ClusterBreak.RI) (pairs (is ClusterBreak.RI) (one (is_not ClusterBreak.RI))) (before self.now) }
    {
        if !self.before_is(RI) {
            return false;
        }
        let place = self.back().beyond_flags();
        !place.is_start() && !place.before_is(RI)
    }

    // The place before all pairs of RI that stand before a place: by twos, which no range counts. Inlined as gb11 is.
    #[inline(always)]
    fn beyond_flags(&self) -> Place<'a>
        ensures { before result ≡ beyond (is ClusterBreak.RI) (before self.now) }
    {
        let mut place = *self;
        while place.is_flag_before() {
            place.at -= 2;
        }
        place
    }

    #[tactic(auto, using(crate::proofs::ClustersSides::flags))]
    fn is_flag_before(&self) -> bool
        ensures { result ≡ next (is ClusterBreak.RI) (one (is ClusterBreak.RI)) (before self.now) }
    {
        self.before_is(RI) && self.back().before_is(RI)
    }
}
