// The parts of a text between separators.
#![tactic(auto, unfolding(crate::specs::Spans::next_from, crate::specs::Spans::letter))]

ghost use Rattle.std.specs.Prelude.{◌≡◌, ◌+◌, drop};
ghost use Rattle.cases.specs.Spans as Spans;
ghost use Rattle.cases.specs.Spans.{before, up_to, next_from};

// Where the span that begins at `at` ends.
pub(crate) fn end_of(xs: &[u8], at: usize, s: u8) -> usize
    ensures { result ≡ at + before s (drop at xs.now) }
{
    for i in at..xs.len() {
        if xs[i] == s {
            return i;
        }
    }
    at.max(xs.len())
}

// Where the next span begins: the end of the text, where there is none.
pub fn next_of(xs: &[u8], at: usize, s: u8) -> usize
    ensures { result ≡ next_from s at xs.now }
{
    let end = end_of(xs, at, s);
    if end < xs.len() { end + 1 } else { end }
}

// The span that begins at `at`.
pub fn span_at(xs: &[u8], at: usize, s: u8) -> &[u8]
    ensures { result.now ≡ up_to s (drop at xs.now) }
{
    if xs.len() < at {
        return &[];
    }
    let end = end_of(xs, at, s);
    &xs[at..end]
}

pub fn span(xs: &[u8], s: u8, k: usize) -> &[u8]
    ensures { result.now ≡ Spans.span s k xs.now }
{
    let mut at: usize = 0;
    for _ in 0..k {
        at = next_of(xs, at, s);
    }
    span_at(xs, at, s)
}

pub(crate) fn count(xs: &[u8], s: u8) -> usize
    ensures { result ≡ Spans.count s xs.now }
{
    xs.iter().filter(|&&x| x == s).count()
}

// The byte of a text of one byte, else 0, which no line has in such a place.
pub fn letter(xs: &[u8]) -> u8
    ensures { result ≡ Spans.letter xs.now }
{
    match xs {
        [x] => *x,
        _ => 0,
    }
}
