// Clusters as UAX #29 has them (SCOPE 12.5), over two lent columns, the cluster breaks and the marks read as Extended_Pictographic: the
// check, two runs that give the same answers, and the step of the one that goes forward.
ghost use Rattle.std.specs.Prelude.{◌≡◌, ◌++◌, ◌≤◌, length, drop};
ghost use Rattle.basics.specs.Columns.{cells};
ghost use Rattle.uax29.specs.Graphemes.{start_at, grapheme_check, grapheme_verdict, grapheme_cells};
ghost use Rattle.uax29.specs.GraphemeStep.{start_state, step_of};

use crate::clusters::boundary;
use crate::forward::write_starts;
use classes::cluster_break;
use records::{Refusal, check_marked, judge_room};

// What the engine that goes forward keeps between two records: the class before (14 where none came yet), whether an odd number of RI
// stands directly before, whether a marked record and any number of EX do, and whether these and a ZWJ do. Every value is allowed, and
// the step refuses those that no text leads to.
#[derive(Clone, Copy, Debug, PartialEq, Eq)]
pub struct GraphemeState {
    pub previous: u8,
    pub odd: bool,
    pub extended: bool,
    pub joined: bool,
}

// What a step hands back: the new state, the answer (1 where a cluster starts at the record) and the verdict.
// With a refusal a step hands back the same state and the answer 0, which its contract says (5.4): so the verdict stands beside them, no Result.
#[derive(Clone, Copy, Debug, PartialEq, Eq)]
pub struct GraphemeStep {
    pub state: GraphemeState,
    pub answer: u8,
    pub verdict: Result<(), Refusal>,
}

impl GraphemeState {
    pub const START: GraphemeState = GraphemeState {
        previous: cluster_break::LEN,
        odd: false,
        extended: false,
        joined: false,
    };

    // `START` is the start state of the definitions.
    pub fn start() -> GraphemeState
        ensures { result ≡ start_state }
    {
        GraphemeState::START
    }

    // One record: the state after it and its answer, or a refusal with the same state and the answer 0.
    pub fn step(self, kind: u8, mark: u8) -> GraphemeStep
        ensures { result ≡ step_of self kind mark }
    {
        let verdict = self.judge(kind, mark);
        let Ok(()) = verdict else {
            return GraphemeStep {
                state: self,
                answer: 0,
                verdict,
            };
        };
        GraphemeStep {
            state: self.after(kind, mark),
            answer: u8::from(self.is_start(kind, mark)),
            verdict: Ok(()),
        }
    }
}

// The verdict on the two columns.
pub fn check_graphemes(breaks: &[u8], marks: &[u8]) -> Result<(), Refusal>
    ensures { result ≡ grapheme_check breaks.now marks.now }
{
    check_marked(cluster_break::LEN, breaks, marks)
}

// The verdict on a run: the check, and a cell for each record.
fn judge(breaks: &[u8], marks: &[u8], room: usize) -> Result<(), Refusal>
    ensures { result ≡ grapheme_verdict breaks.now marks.now room }
{
    judge_room(check_graphemes(breaks, marks), breaks.len(), room)
}

fn decide_starts(breaks: &[u8], marks: &[u8], out: &mut [u8])
    requires { length breaks.now ≤ length out.old }
    ensures { out.new ≡ cells (start_at breaks.now marks.now) (length breaks.now) ++ drop (length breaks.now) out.old }
{
    for i in 0..breaks.len() {
        out[i] = u8::from(boundary(breaks, marks, i));
    }
}

// Two runs that differ in what fills the cells: a function over the filler would need a longer contract than both have.
// The answers to a whole text, one cell a record: each place is decided from the rules by looking back.
#[tactic(auto, using(crate::proofs::GraphemeSummary::run_long))]
pub fn graphemes_back(breaks: &[u8], marks: &[u8], out: &mut [u8]) -> Result<(), Refusal>
    ensures value { result ≡ grapheme_verdict breaks.now marks.now (length out.old) }
    ensures out_after { out.new ≡ grapheme_cells breaks.now marks.now out.old }
{
    judge(breaks, marks, out.len())?;
    decide_starts(breaks, marks, out);
    Ok(())
}

// The same answers in one pass that goes forward.
#[tactic(auto, using(crate::proofs::GraphemeSummary::run_checked, crate::proofs::GraphemeSummary::run_long))]
pub fn graphemes_forward(breaks: &[u8], marks: &[u8], out: &mut [u8]) -> Result<(), Refusal>
    ensures value { result ≡ grapheme_verdict breaks.now marks.now (length out.old) }
    ensures out_after { out.new ≡ grapheme_cells breaks.now marks.now out.old }
{
    judge(breaks, marks, out.len())?;
    write_starts(breaks, marks, out);
    Ok(())
}
