// Which characters belong to which bytes: the answers of segment's calls with the spans of their records in the text's UTF-8. It is a layer
// over these answers, which stay as they are.
#![tactic(auto)]

mod arrays;
mod clusters;
mod offsets;
mod runs;

ghost use Rattle.std.specs.Prelude.{◌≡◌};
ghost use Rattle.records.specs.Text.{lent};
ghost use Rattle.spans.specs.Spans.{spanned};
ghost use Rattle.spans.specs.Runs.{RanSpansIn};

use arrays::spans_at;
use classes::Mode;
use records::{Columns, Parser};
use runs::run_roomy;
use segment::{Answer, RunAnswer, Segmenter};

// The bytes of a pushed character: the offset and the length of its record, and of the notes directly after it, both 0 without notes.
#[derive(Clone, Copy, Debug, PartialEq, Eq)]
pub struct Span {
    pub offset: u32,
    pub length: u32,
    pub noffset: u32,
    pub nlength: u32,
}

// The bytes of a cluster: those of its characters, where it starts and where it ends.
#[derive(Clone, Copy, Debug, PartialEq, Eq)]
pub struct Spans {
    pub chars: [Span; 32],
    pub start: u32,
    pub end: u32,
}

impl Spans {
    pub const NONE: Spans = Spans {
        chars: [Span {
            offset: 0,
            length: 0,
            noffset: 0,
            nlength: 0,
        }; 32],
        start: 0,
        end: 0,
    };
}

// What a stepping call answers, and the spans of its cluster.
#[derive(Clone, Copy, Debug, PartialEq, Eq)]
pub struct SpanAnswer {
    pub answer: Answer,
    pub spans: Spans,
}

// One call, as `Segmenter::next`, with the spans of its cluster.
pub fn next(state: Segmenter, columns: &Columns) -> SpanAnswer
    ensures { result ≡ spanned state (lent columns.now) }
{
    let answer = state.next(columns);
    if answer.cluster.len == 0 {
        return SpanAnswer {
            answer,
            spans: Spans::NONE,
        };
    }
    let spans = spans_at(state, answer.cluster, columns);
    SpanAnswer { answer, spans }
}

// A full run, as segment's, with four more columns for the characters and two for the clusters.
pub fn run(
    parser: Parser,
    mode: Mode,
    columns: &Columns,
    oscalars: &mut [u32],
    oclasses: &mut [u8],
    oclusters: &mut [u16],
    offsets: &mut [u32],
    lengths: &mut [u32],
    noffsets: &mut [u32],
    nlengths: &mut [u32],
    starts: &mut [u32],
    ends: &mut [u32],
) -> RunAnswer
    ensures { RanSpansIn parser mode (lent columns.now) oscalars oclasses oclusters offsets lengths noffsets nlengths starts ends result }
{
    let room = runs::shortest(
        offsets.len(),
        lengths.len(),
        noffsets.len(),
        nlengths.len(),
        starts.len(),
        ends.len(),
    );
    if room / 2 < segment::count_of(parser, mode, columns) {
        return runs::crowded(parser, columns);
    }
    let answer = segment::run(parser, mode, columns, oscalars, oclasses, oclusters);
    if answer.clusters == 0 {
        return answer;
    }
    run_roomy(
        parser, mode, columns, offsets, lengths, noffsets, nlengths, starts, ends,
    );
    answer
}
