// The tokens of an accepted text in an array, for the spans of one cluster.
ghost use Rattle.std.specs.Prelude.{◌≡◌, ◌≤◌};
ghost use Rattle.records.specs.Text.{lent};
ghost use Rattle.stream.specs.Stream.{most_tokens};
ghost use Rattle.spans.specs.Inner.{Spannable, SpansAt};

use crate::Spans;
use crate::offsets::Counted;
use parse::Cluster;
use records::Columns;
use segment::{SHORT, Segmenter, count_of, tokens_of};
use stream::MOST_TOKENS;

// The spans over the tokens in an array of N cells, in a frame of its own, as segment's calls have one.
#[inline(never)]
fn spans_within<const N: usize>(state: Segmenter, cluster: Cluster, columns: &Columns) -> Spans
    requires { (N ≤ most_tokens) × Spannable state (lent columns.now) cluster N }
    ensures { SpansAt state (lent columns.now) cluster result }
{
    let mut out = [0u64; N];
    let n = tokens_of(state.parser, state.mode, columns, &mut out);
    Counted::START.spans(columns.scalars, &out[..n], cluster, state.place.at)
}

// The spans of a cluster that a call on an accepted text handed out.
pub(crate) fn spans_at(state: Segmenter, cluster: Cluster, columns: &Columns) -> Spans
    requires { Spannable state (lent columns.now) cluster most_tokens }
    ensures { SpansAt state (lent columns.now) cluster result }
{
    if count_of(state.parser, state.mode, columns) <= SHORT {
        spans_within::<SHORT>(state, cluster, columns)
    } else {
        spans_within::<MOST_TOKENS>(state, cluster, columns)
    }
}
