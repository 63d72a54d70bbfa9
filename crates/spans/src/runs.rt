// The six columns of a full run: its calls one after the other, over an array of tokens.
ghost use Rattle.std.specs.Prelude.{◌≡◌, ◌≤◌, [], min, Err};
ghost use Rattle.records.specs.Text.{lent};
ghost use Rattle.records.specs.Refusals.{◌⊳◌, refusal, verdict};
ghost use Rattle.records.specs.declared.Side.TheVariants.{Neither};
ghost use Rattle.stream.specs.Stream.{stream_of, most_tokens};
ghost use Rattle.segment.specs.Runs.{run_under};
ghost use Rattle.spans.specs.Inner.{Fits, Written, Roomy, RoomyIn, FilledOn, FilledIn, cells_of};

use crate::Spans;
use crate::clusters::first_record;
use crate::offsets::Counted;
use classes::Mode;
use records::{Columns, Parser, Refusal, Side, check};
use segment::{RunAnswer, SHORT, call, count_of, tokens_of};
use stream::MOST_TOKENS;

// The length of the shortest of the six columns.
pub(crate) fn shortest(a: usize, b: usize, c: usize, d: usize, e: usize, f: usize) -> usize
    ensures { result ≡ min a (min b (min c (min d (min e f)))) }
{
    a.min(b.min(c.min(d.min(e.min(f)))))
}

// The answer where they have too few cells: 9, if the check does not refuse before.
pub(crate) fn crowded(parser: Parser, columns: &Columns) -> RunAnswer
    ensures { result ≡ run_under (verdict parser (lent columns.now) ⊳ Err (refusal 9 Neither 0)) [] }
{
    let no_room = Refusal {
        number: 9,
        side: Side::Neither,
        index: 0,
    };
    RunAnswer::refused(check(parser, columns).err().unwrap_or(no_room))
}

// The characters of one cluster, written from a cell on.
fn write(
    spans: Spans,
    len: usize,
    at: usize,
    offsets: &mut [u32],
    lengths: &mut [u32],
    noffsets: &mut [u32],
    nlengths: &mut [u32],
)
    requires { Fits spans len at offsets.old lengths.old noffsets.old nlengths.old }
    ensures { Written spans len at offsets lengths noffsets nlengths }
{
    for j in 0..len {
        let s = spans.chars[j];
        let i = at + j;
        offsets[i] = s.offset;
        lengths[i] = s.length;
        noffsets[i] = s.noffset;
        nlengths[i] = s.nlength;
    }
}

// Every call from the start to the end. A call tells where the next begins: no range counts the places.
fn fill(
    parser: Parser,
    mode: Mode,
    scalars: &[u32],
    text: &[u64],
    offsets: &mut [u32],
    lengths: &mut [u32],
    noffsets: &mut [u32],
    nlengths: &mut [u32],
    starts: &mut [u32],
    ends: &mut [u32],
)
    requires { Roomy text.now (cells_of offsets lengths noffsets nlengths starts ends) }
    ensures { FilledOn parser mode scalars.now text.now offsets lengths noffsets nlengths starts ends }
{
    let mut along = Counted::START;
    let mut at: usize = 0;
    let mut clusters: usize = 0;
    let mut characters: usize = 0;
    while at < text.len() {
        let p = call(parser, mode, text, at);
        let cluster = p.cluster();
        let spans = along.spans(scalars, text, cluster, at);
        write(
            spans, p.len, characters, offsets, lengths, noffsets, nlengths,
        );
        starts[clusters] = spans.start;
        ends[clusters] = spans.end;
        along = Counted {
            index: first_record(cluster),
            bytes: spans.start,
        };
        characters += p.len;
        clusters += 1;
        at = p.place(text).at;
    }
}

// The same over the tokens in an array of N cells, in a frame of its own, as segment's runs have one.
#[inline(never)]
fn fill_within<const N: usize>(
    parser: Parser,
    mode: Mode,
    columns: &Columns,
    offsets: &mut [u32],
    lengths: &mut [u32],
    noffsets: &mut [u32],
    nlengths: &mut [u32],
    starts: &mut [u32],
    ends: &mut [u32],
)
    requires { (N ≤ most_tokens) × RoomyIn parser mode (lent columns.now) N (cells_of offsets lengths noffsets nlengths starts ends) }
    ensures { FilledIn parser mode (lent columns.now) offsets lengths noffsets nlengths starts ends }
{
    let mut out = [0u64; N];
    let n = tokens_of(parser, mode, columns, &mut out);
    fill(
        parser,
        mode,
        columns.scalars,
        &out[..n],
        offsets,
        lengths,
        noffsets,
        nlengths,
        starts,
        ends,
    )
}

// The six columns of an accepted text, where they have room.
pub(crate) fn run_roomy(
    parser: Parser,
    mode: Mode,
    columns: &Columns,
    offsets: &mut [u32],
    lengths: &mut [u32],
    noffsets: &mut [u32],
    nlengths: &mut [u32],
    starts: &mut [u32],
    ends: &mut [u32],
)
    requires { RoomyIn parser mode (lent columns.now) most_tokens (cells_of offsets lengths noffsets nlengths starts ends) }
    ensures { FilledIn parser mode (lent columns.now) offsets lengths noffsets nlengths starts ends }
{
    if count_of(parser, mode, columns) <= SHORT {
        fill_within::<SHORT>(
            parser, mode, columns, offsets, lengths, noffsets, nlengths, starts, ends,
        )
    } else {
        fill_within::<MOST_TOKENS>(
            parser, mode, columns, offsets, lengths, noffsets, nlengths, starts, ends,
        )
    }
}
