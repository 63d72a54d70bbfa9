// Clusters by an edition of UAX #29 (SCOPE 12.6), over three lent columns, the cluster breaks, the marks read as Extended_Pictographic and
// the conjunct codes: the check, two runs that give the same answers, and the step of the one that goes forward.
ghost use Rattle.std.specs.Prelude.{◌≡◌, false, cond, ◌++◌, ◌≤◌, ◌<◌, length, drop, Ok};
ghost use Rattle.basics.specs.Columns.{cells};
ghost use Rattle.uax29.specs.Graphemes.{grapheme_check};
ghost use Rattle.uax29.specs.EditionRuns.{start_in, unknown, edition_check, edition_verdict, edition_cells};
ghost use Rattle.uax29.specs.EditionStep.{item_of, start_state, bad_link, bad_state_in, advance_in, starts_in, step_verdict_in, step_in};

use crate::clusters::boundary;
use crate::conjoined::{Link, is_conjoined, is_joined, take_starts, taken};
use crate::conjunct;
use crate::forward::write_starts;
use crate::graphemes::GraphemeState;
use classes::cluster_break;
use records::{Refusal, Side, is_bad_three, judge_codes, judge_columns, judge_room, refused};

pub const UNICODE_15_0: u64 = 150;

pub const UNICODE_15_1: u64 = 151;

fn is_unknown(edition: u64) -> bool
    ensures { result ≡ unknown edition }
{
    !matches!(edition, UNICODE_15_0 | UNICODE_15_1)
}

// The verdict on an edition and the three columns.
#[tactic(auto, unfolding(crate::specs::EditionRuns::edition_check))]
pub fn check_edition(
    edition: u64,
    breaks: &[u8],
    marks: &[u8],
    conjuncts: &[u8],
) -> Result<(), Refusal>
    ensures { result ≡ edition_check edition breaks.now marks.now conjuncts.now }
{
    if is_unknown(edition) {
        return refused(15, Side::Neither, 0);
    }
    judge_columns(breaks.len(), conjuncts.len(), marks.len())?;
    judge_codes(cluster_break::LEN, conjunct::LEN, breaks, conjuncts, marks)
}

// The verdict on a run: the check, and a cell for each record.
fn judge(
    edition: u64,
    breaks: &[u8],
    marks: &[u8],
    conjuncts: &[u8],
    room: usize,
) -> Result<(), Refusal>
    ensures { result ≡ edition_verdict edition breaks.now marks.now conjuncts.now room }
{
    judge_room(
        check_edition(edition, breaks, marks, conjuncts),
        breaks.len(),
        room,
    )
}

// A place by looking back: GB9c takes away a start of 15.0, and gives none.
#[tactic(auto, using(crate::proofs::EditionLaws::places_in))]
fn start_in(edition: u64, breaks: &[u8], marks: &[u8], conjuncts: &[u8], at: usize) -> u8
    requires { at < length breaks.now }
    ensures { result ≡ start_in edition breaks.now marks.now conjuncts.now at }
{
    let start = u8::from(boundary(breaks, marks, at));
    if edition == UNICODE_15_1 {
        return taken(is_conjoined(breaks, conjuncts, at), start);
    }
    start
}

fn decide_starts_in(edition: u64, breaks: &[u8], marks: &[u8], conjuncts: &[u8], out: &mut [u8])
    requires { length breaks.now ≤ length out.old }
    ensures { out.new ≡ cells (start_in edition breaks.now marks.now conjuncts.now) (length breaks.now) ++ drop (length breaks.now) out.old }
{
    for i in 0..breaks.len() {
        out[i] = start_in(edition, breaks, marks, conjuncts, i);
    }
}

// The answers to a whole text, one cell a record: each place is decided from the edition's rules by looking back.
#[tactic(auto, using(crate::proofs::EditionLaws::run_long))]
pub fn edition_back(
    edition: u64,
    breaks: &[u8],
    marks: &[u8],
    conjuncts: &[u8],
    out: &mut [u8],
) -> Result<(), Refusal>
    ensures value { result ≡ edition_verdict edition breaks.now marks.now conjuncts.now (length out.old) }
    ensures out_after { out.new ≡ edition_cells edition breaks.now marks.now conjuncts.now out.old }
{
    judge(edition, breaks, marks, conjuncts, out.len())?;
    decide_starts_in(edition, breaks, marks, conjuncts, out);
    Ok(())
}

// The answers of 15.0, and for 15.1 a pass that takes starts away.
fn write_starts_in(edition: u64, breaks: &[u8], marks: &[u8], conjuncts: &[u8], out: &mut [u8])
    requires { (grapheme_check breaks.now marks.now ≡ Ok tt) × (length breaks.now ≤ length out.old) }
    ensures { out.new ≡ cells (start_in edition breaks.now marks.now conjuncts.now) (length breaks.now) ++ drop (length breaks.now) out.old }
{
    write_starts(breaks, marks, out);
    if edition == UNICODE_15_1 {
        take_starts(breaks, conjuncts, out);
    }
}

// The same answers by passes that go forward.
#[tactic(auto, using(crate::proofs::EditionLaws::run_checked, crate::proofs::EditionLaws::run_long))]
pub fn edition_forward(
    edition: u64,
    breaks: &[u8],
    marks: &[u8],
    conjuncts: &[u8],
    out: &mut [u8],
) -> Result<(), Refusal>
    ensures value { result ≡ edition_verdict edition breaks.now marks.now conjuncts.now (length out.old) }
    ensures out_after { out.new ≡ edition_cells edition breaks.now marks.now conjuncts.now out.old }
{
    judge(edition, breaks, marks, conjuncts, out.len())?;
    write_starts_in(edition, breaks, marks, conjuncts, out);
    Ok(())
}

// What the engine that goes forward keeps between two records: the state of 15.0, and what GB9c needs beside it. Every value is allowed, and
// the step refuses those that no text leads to.
#[derive(Clone, Copy, Debug, PartialEq, Eq)]
pub struct EditionState {
    pub graphemes: GraphemeState,
    pub link: Link,
}

// What a step hands back: the new state, the answer (1 where a cluster starts at the record) and the verdict.
// With a refusal a step hands back the same state and the answer 0, which its contract says (5.4): so the verdict stands beside them, no Result.
#[derive(Clone, Copy, Debug, PartialEq, Eq)]
pub struct EditionStep {
    pub state: EditionState,
    pub answer: u8,
    pub verdict: Result<(), Refusal>,
}

impl EditionState {
    pub const START: EditionState = EditionState {
        graphemes: GraphemeState::START,
        link: Link::NONE,
    };

    // `START` is the start state of the definitions.
    pub fn start() -> EditionState
        ensures { result ≡ start_state }
    {
        EditionState::START
    }

    fn is_bad(self) -> bool
        ensures { result ≡ bad_state_in self }
    {
        self.graphemes.is_bad() || self.link.is_bad(self.graphemes.previous)
    }

    #[tactic(auto, using(crate::proofs::Chain::told_verdicts), unfolding(crate::specs::EditionStep::step_verdict_in))]
    fn judge(self, edition: u64, kind: u8, mark: u8, conjunct: u8) -> Result<(), Refusal>
        ensures { result ≡ step_verdict_in edition self kind mark conjunct }
    {
        if is_unknown(edition) {
            return refused(15, Side::Neither, 0);
        }
        if is_bad_three(cluster_break::LEN, conjunct::LEN, kind, conjunct, mark) {
            return refused(4, Side::Record, 0);
        }
        if self.is_bad() {
            return refused(8, Side::Neither, 0);
        }
        Ok(())
    }

    #[tactic(auto, unfolding(crate::specs::EditionStep::advance_in, crate::specs::GraphemeStep::advance, crate::specs::Rules::is, crate::specs::Rules::pictographic))]
    fn after(self, kind: u8, mark: u8, conjunct: u8) -> EditionState
        ensures { result ≡ advance_in self (item_of kind mark conjunct) }
    {
        EditionState {
            graphemes: self.graphemes.after(kind, mark),
            link: self.link.after(conjunct),
        }
    }

    // As of a place: GB9c takes away a start of 15.0, and gives none.
    #[tactic(auto, using(crate::proofs::EditionLaws::answers_in))]
    fn answer(self, edition: u64, kind: u8, mark: u8, conjunct: u8) -> u8
        requires { bad_state_in self ≡ false }
        ensures { result ≡ cond (starts_in edition self (item_of kind mark conjunct)) 1 0 }
    {
        let start = u8::from(self.graphemes.is_start(kind, mark));
        if edition == UNICODE_15_1 {
            return taken(
                is_joined(self.link.linked, conjunct, self.graphemes.previous, kind),
                start,
            );
        }
        start
    }

    // One record: the state after it and its answer, or a refusal with the same state and the answer 0.
    pub fn step(self, edition: u64, kind: u8, mark: u8, conjunct: u8) -> EditionStep
        ensures { result ≡ step_in edition self kind mark conjunct }
    {
        let verdict = self.judge(edition, kind, mark, conjunct);
        let Ok(()) = verdict else {
            return EditionStep {
                state: self,
                answer: 0,
                verdict,
            };
        };
        EditionStep {
            state: self.after(kind, mark, conjunct),
            answer: self.answer(edition, kind, mark, conjunct),
            verdict: Ok(()),
        }
    }
}
