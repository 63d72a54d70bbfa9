// The spans of one cluster's characters, over the tokens that its call read.
ghost use Rattle.std.specs.Prelude.{◌≡◌, ◌-◌};
ghost use Rattle.parse.specs.Cover.{characters_of};
ghost use Rattle.spans.specs.Spans.{record_at, last_record, span_of, spans_of, first_record};
ghost use Rattle.spans.specs.Inner.{Counts, Near, Asked};

use crate::offsets::{Counted, length_of};
use crate::{Span, Spans};
use parse::{Cluster, Pushed};

// The record of the token at a place.
fn record_at(text: &[u64], at: usize) -> u16
    ensures { result ≡ record_at text.now at }
{
    if at < text.len() {
        token::index(text[at])
    } else {
        0
    }
}

// The record of the last token of a character and its notes.
fn last_record(text: &[u64], c: Pushed, at: usize) -> u16
    requires { Near at }
    ensures { result ≡ last_record text.now at c }
{
    if c.noted == 0 {
        return c.index;
    }
    record_at(text, at + c.noted as usize)
}

// The record of the first character.
pub(crate) fn first_record(c: Cluster) -> u16
    ensures { result ≡ first_record (characters_of c) }
{
    if c.len == 0 { 0 } else { c.chars[0].index }
}

// How many bytes lie from one offset to another; 0 where the second is before the first.
fn distance(from: u32, to: u32) -> u32
    ensures { result ≡ to - from }
{
    to.saturating_sub(from)
}

impl Counted {
    // The span of a character whose token is the one at a place.
    fn span(self, scalars: &[u32], text: &[u64], c: Pushed, at: usize) -> Span
        requires { Counts scalars.now self × Near at }
        ensures { result ≡ span_of scalars.now text.now at c }
    {
        let own = self.to(scalars, c.index);
        let offset = own.bytes;
        let length = length_of(scalars, c.index);
        if c.noted == 0 {
            return Span {
                offset,
                length,
                noffset: 0,
                nlength: 0,
            };
        }
        let first = own.to(scalars, record_at(text, at + 1));
        let last = first.to(scalars, last_record(text, c, at));
        let end = last.bytes + length_of(scalars, last.index);
        let nlength = distance(first.bytes, end);
        Span {
            offset,
            length,
            noffset: first.bytes,
            nlength,
        }
    }

    // The spans of a cluster whose call began at a place, counted from here on.
    pub(crate) fn spans(self, scalars: &[u32], text: &[u64], cluster: Cluster, at: usize) -> Spans
        requires { Asked scalars.now self cluster at }
        ensures { result ≡ spans_of scalars.now text.now at cluster }
    {
        let mut along = self.to(scalars, first_record(cluster));
        let start = along.bytes;
        let mut chars = Spans::NONE.chars;
        let mut end: u32 = 0;
        let mut place = at;
        for j in 0..cluster.len {
            let c = cluster.chars[j];
            chars[j] = along.span(scalars, text, c, place);
            along = along.to(scalars, last_record(text, c, place));
            end = along.bytes + length_of(scalars, along.index);
            place += 1 + c.noted as usize;
        }
        Spans { chars, start, end }
    }
}
