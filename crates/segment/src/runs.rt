// A full run: the table over the columns, and what it leaves over an array of tokens, by the table again or by the calls.
ghost use Rattle.std.specs.Prelude.{◌≡◌, ◌≤◌, length, Ok, Err};
ghost use Rattle.records.specs.Text.{lent};
ghost use Rattle.records.specs.Sound.{Sound};
ghost use Rattle.stream.specs.Stream.{stream_of, most_tokens};
ghost use Rattle.segment.specs.Inner.{Fits};
ghost use Rattle.segment.specs.Standing.{Written, Known, Ample, Begun, Stands, Finished, Rests, FinishedIn, RanWhole, RanIn};

use crate::RunAnswer;
use crate::calls::call;
use crate::direct::direct;
use crate::going::Stand;
use crate::parted::parted;
use crate::regular::{is_direct, is_parted};
use crate::streams::{MIDDLE, SHORT, count_of, tokens_of};
use crate::tabled::tabled;
use classes::Mode;
use parse::Parse;
use records::{Columns, Parser, Refusal, Side};
use stream::MOST_TOKENS;

// What a run works on: its parser and mode, whether the records are the tokens and regular, whether they are split into regular ones, and
// how many tokens there are.
#[derive(Clone, Copy)]
pub(crate) struct Task {
    pub parser: Parser,
    pub mode: Mode,
    pub direct: bool,
    pub parted: bool,
    pub tokens: usize,
}

// What is left of it, from a stand on.
#[derive(Clone, Copy)]
pub(crate) struct Rest {
    pub task: Task,
    pub from: Stand,
}

impl RunAnswer {
    // The answer of a run that refuses: nothing is written.
    pub fn refused(refusal: Refusal) -> RunAnswer
        ensures { result ≡ record { verdict = Err refusal; clusters = 0; characters = 0 } }
    {
        RunAnswer {
            verdict: Err(refusal),
            clusters: 0,
            characters: 0,
        }
    }

    fn accepted(s: Stand) -> RunAnswer
        ensures { result ≡ record { verdict = Ok tt; clusters = s.clusters; characters = s.characters } }
    {
        RunAnswer {
            verdict: Ok(()),
            clusters: s.clusters,
            characters: s.characters,
        }
    }
}

// The characters of the cluster of this number, written from a cell on.
fn write(
    p: Parse,
    number: u16,
    at: usize,
    oscalars: &mut [u32],
    oclasses: &mut [u8],
    oclusters: &mut [u16],
)
    requires { Fits p at oscalars.old oclasses.old oclusters.old }
    ensures { Written p number at oscalars oclasses oclusters }
{
    for j in 0..p.len {
        let c = p.chars[j];
        let i = at + j;
        oscalars[i] = c.scalar;
        oclasses[i] = u8::from(c.class);
        oclusters[i] = number;
    }
}

// Every call from a stand to the end. A call tells where the next begins: no range counts the places, here and in the loops over the table.
fn finish(
    parser: Parser,
    mode: Mode,
    text: &[u64],
    from: Stand,
    oscalars: &mut [u32],
    oclasses: &mut [u8],
    oclusters: &mut [u16],
) -> RunAnswer
    requires { Stands parser mode text.now oscalars oclasses oclusters from }
    ensures { Finished parser mode text.now from oscalars oclasses oclusters result }
{
    let mut s = from;
    while s.at < text.len() {
        let p = call(parser, mode, text, s.at);
        let (number, o) = (s.clusters as u16, s.characters);
        write(p, number, o, oscalars, oclasses, oclusters);
        s = Stand {
            at: p.place(text).at,
            clusters: s.clusters + 1,
            characters: s.characters + p.len,
        };
    }
    RunAnswer::accepted(s)
}

// What is left of a run, over the tokens in an array of N cells: in a frame of its own, as `Segmenter::next_within` has one.
#[inline(never)]
fn run_within<const N: usize>(
    rest: Rest,
    columns: &Columns,
    oscalars: &mut [u32],
    oclasses: &mut [u8],
    oclusters: &mut [u16],
) -> RunAnswer
    requires { (N ≤ most_tokens) × Rests rest (lent columns.now) N oscalars oclasses oclusters }
    ensures { FinishedIn rest (lent columns.now) oscalars oclasses oclusters result }
{
    let Task { parser, mode, .. } = rest.task;
    let mut out = [0u64; N];
    let n = tokens_of(parser, mode, columns, &mut out);
    let text = &out[..n];
    let s = tabled(parser, mode, text, rest.from, oscalars, oclasses, oclusters);
    finish(parser, mode, text, s, oscalars, oclasses, oclusters)
}

// The same in the array that is large enough: for a label, for a paragraph, for the longest text.
fn run_rest(
    rest: Rest,
    columns: &Columns,
    oscalars: &mut [u32],
    oclasses: &mut [u8],
    oclusters: &mut [u16],
) -> RunAnswer
    requires { (rest.task.tokens ≤ most_tokens) × Rests rest (lent columns.now) rest.task.tokens oscalars oclasses oclusters }
    ensures { FinishedIn rest (lent columns.now) oscalars oclasses oclusters result }
{
    let n = rest.task.tokens;
    if n <= SHORT {
        run_within::<SHORT>(rest, columns, oscalars, oclasses, oclusters)
    } else if n <= MIDDLE {
        run_within::<MIDDLE>(rest, columns, oscalars, oclasses, oclusters)
    } else {
        run_within::<MOST_TOKENS>(rest, columns, oscalars, oclasses, oclusters)
    }
}

// How many tokens an accepted text has: as many as records where the records are the tokens.
fn token_count(direct: bool, parser: Parser, mode: Mode, columns: &Columns) -> usize
    requires { Known direct parser mode (lent columns.now) }
    ensures { result ≡ length (stream_of mode parser (lent columns.now)) }
{
    if direct {
        columns.scalars.len()
    } else {
        count_of(parser, mode, columns)
    }
}

// The clusters that the table makes of the columns themselves, where it can. In a frame of its own, so that what its loops keep is gone
// from the stack when the rest of the run begins.
#[inline(never)]
fn begin(
    task: Task,
    columns: &Columns,
    oscalars: &mut [u32],
    oclasses: &mut [u8],
    oclusters: &mut [u16],
) -> Stand
    requires { Ample task (lent columns.now) oscalars oclasses oclusters }
    ensures { Begun task (lent columns.now) oscalars oclasses oclusters result }
{
    let Task {
        parser,
        mode,
        tokens,
        ..
    } = task;
    if task.direct {
        return direct(parser, mode, columns, oscalars, oclasses, oclusters);
    }
    if task.parted {
        return parted(parser, mode, tokens, columns, oscalars, oclasses, oclusters);
    }
    Stand::START
}

// A run over an accepted text whose columns have room.
fn run_roomy(
    task: Task,
    columns: &Columns,
    oscalars: &mut [u32],
    oclasses: &mut [u8],
    oclusters: &mut [u16],
) -> RunAnswer
    requires { Ample task (lent columns.now) oscalars oclasses oclusters }
    ensures { RanWhole task (lent columns.now) oscalars oclasses oclusters result }
{
    let from = begin(task, columns, oscalars, oclasses, oclusters);
    if from.at < task.tokens {
        let rest = Rest { task, from };
        return run_rest(rest, columns, oscalars, oclasses, oclusters);
    }
    RunAnswer::accepted(from)
}

// A run over an accepted text.
pub(crate) fn run_accepted(
    parser: Parser,
    mode: Mode,
    columns: &Columns,
    oscalars: &mut [u32],
    oclasses: &mut [u8],
    oclusters: &mut [u16],
) -> RunAnswer
    requires { Sound parser (lent columns.now) }
    ensures { RanIn parser mode (lent columns.now) oscalars oclasses oclusters result }
{
    let direct = is_direct(parser, mode, columns);
    let parted = is_parted(direct, parser, mode, columns);
    let tokens = token_count(direct, parser, mode, columns);
    let room = oscalars.len().min(oclasses.len().min(oclusters.len()));
    if room < 2 * tokens {
        return RunAnswer::refused(Refusal {
            number: 9,
            side: Side::Neither,
            index: 0,
        });
    }
    let task = Task {
        parser,
        mode,
        direct,
        parted,
        tokens,
    };
    run_roomy(task, columns, oscalars, oclasses, oclusters)
}
