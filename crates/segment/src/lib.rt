// The public face: a stepping call and a full run for each parser, with every refusal.
#![tactic(auto)]

mod calls;
mod direct;
mod going;
mod parted;
mod regular;
mod runs;
mod streams;
mod tabled;
mod way;

ghost use Rattle.std.specs.Prelude.{◌≡◌};
ghost use Rattle.records.specs.Text.{lent};
ghost use Rattle.parse.specs.State.{start_place};
ghost use Rattle.segment.specs.Calls.{next_of};
ghost use Rattle.segment.specs.Met.{what_code, refusal_in};
ghost use Rattle.segment.specs.Runs.{RanOf};

pub use calls::call;
use classes::Mode;
use parse::{Cluster, Place};
use records::{Columns, Parser, Refusal, check};
use runs::run_accepted;
pub use streams::{SHORT, count_of, tokens_of};

// A parser over a text: which one, in which mode, and where it stands.
#[derive(Clone, Copy, Debug, PartialEq, Eq)]
pub struct Segmenter {
    pub parser: Parser,
    pub mode: Mode,
    pub place: Place,
}

// What a call met: a cluster, the end of the text, or a refusal. It is no `Result` with the answer inside, here and in `RunAnswer`: the
// contract says what a refusal leaves, too, the state and 0 and 0 (`answer_under`, `run_under`).
#[derive(Clone, Copy, Debug, PartialEq, Eq)]
pub enum What {
    Found,
    Over,
    Refused(Refusal),
}

impl What {
    // The number that a stepping call tells for what it met.
    pub fn code(self) -> u8
        ensures { result ≡ what_code self }
    {
        match self {
            What::Found => 0,
            What::Over => 1,
            What::Refused(_) => 2,
        }
    }

    // The refusal alone.
    pub fn verdict(self) -> Result<(), Refusal>
        ensures { result ≡ refusal_in self }
    {
        match self {
            What::Found | What::Over => Ok(()),
            What::Refused(refusal) => Err(refusal),
        }
    }
}

// The next state, how many tokens the call passed, what it met, and the cluster.
#[derive(Clone, Copy, Debug, PartialEq, Eq)]
pub struct Answer {
    pub state: Segmenter,
    pub passed: usize,
    pub what: What,
    pub cluster: Cluster,
}

// What a full run met, and how many clusters and characters it wrote: 0 and 0 with a refusal.
#[derive(Clone, Copy, Debug, PartialEq, Eq)]
pub struct RunAnswer {
    pub verdict: Result<(), Refusal>,
    pub clusters: usize,
    pub characters: usize,
}

impl Segmenter {
    pub fn start(parser: Parser, mode: Mode) -> Segmenter
        ensures { result ≡ record { parser = parser; mode = mode; place = start_place } }
    {
        Segmenter {
            parser,
            mode,
            place: Place::START,
        }
    }

    // One call. The whole text is judged anew each time.
    pub fn next(self, columns: &Columns) -> Answer
        ensures { result ≡ next_of self (lent columns.now) }
    {
        match check(self.parser, columns) {
            Ok(()) => self.next_accepted(columns),
            Err(refusal) => self.refused(refusal),
        }
    }
}

// A full run: each pushed character's scalar, shape class and cluster number, in the three columns lent last.
pub fn run(
    parser: Parser,
    mode: Mode,
    columns: &Columns,
    oscalars: &mut [u32],
    oclasses: &mut [u8],
    oclusters: &mut [u16],
) -> RunAnswer
    ensures { RanOf parser mode (lent columns.now) oscalars.old oclasses.old oclusters.old result oscalars.new oclasses.new oclusters.new }
{
    match check(parser, columns) {
        Ok(()) => run_accepted(parser, mode, columns, oscalars, oclasses, oclusters),
        Err(refusal) => RunAnswer::refused(refusal),
    }
}
