// What one push, one note and one step do to a call under way, in both modes.
ghost use Rattle.std.specs.Prelude.{◌≡◌, ◌+◌, ◌-◌, length};
ghost use Rattle.parse.specs.State.{token_at, place_after, cluster_of, place_of, is_going, filled_at, last_room, put_of, noted_of, moved_of, on_joiner, step_of, push_of, resumed_of, retried_of, go_on, passes_end};
ghost use Rattle.parse.specs.Inner.{step_past, last_pushed};

use crate::{Cluster, Flow, Parse, Place, Pushed};
use classes::{Mode, Shape, scalar};

pub fn token_at(text: &[u64], i: usize) -> u64
    ensures { result ≡ token_at text.now i }
{
    text.get(i).copied().unwrap_or(0)
}

// The token behind a place.
pub(crate) fn token_after(text: &[u64], i: usize) -> u64
    ensures { result ≡ token_at text.now (i + 1) }
{
    if i < text.len() {
        token_at(text, i + 1)
    } else {
        0
    }
}

fn place_after(n: usize, i: usize) -> usize
    ensures { result ≡ place_after n i }
{
    if i < n { i + 1 } else { i }
}

// The place of a call whose cluster has 32: where the modes differ.
fn filled_at(mode: Mode, n: usize, i: usize) -> usize
    ensures { result ≡ filled_at mode n i }
{
    match mode {
        Mode::Crate => i,
        Mode::Whole => place_after(n, i),
    }
}

// Whether a cluster of len characters has room for one more that must not be parted from the next: where the modes differ.
pub(crate) fn last_room(mode: Mode, len: usize) -> bool
    ensures { result ≡ last_room mode len }
{
    match mode {
        Mode::Crate => false,
        Mode::Whole => len == 31,
    }
}

fn go_on(flow: Flow) -> Flow
    ensures { result ≡ go_on flow }
{
    match flow {
        Flow::GoOn | Flow::Stop => Flow::GoOn,
        Flow::Full | Flow::End => flow,
    }
}

// Whether the end of the text is passed over, repeat (b): where the modes differ.
fn passes_end(mode: Mode, flow: Flow, again: bool) -> bool
    ensures { result ≡ passes_end mode flow again }
{
    matches!((mode, flow), (Mode::Crate, Flow::End)) && !again
}

// A U+034F is taken as Other, and so are all that follow it directly, as long as there is room (SCOPE 6.2): the last token that is pushed
// so, where a cluster of len characters steps off token i. No range: the last token has no token after it, and the definition counts the
// room that is left.
fn step_past(text: &[u64], mut i: usize, mut len: usize) -> usize
    ensures { result ≡ step_past (32 - len) (length text.now) text.now i }
{
    while len < 32 {
        let next = place_after(text.len(), i);
        if token::scalar(token_at(text, next)) != scalar::CGJ {
            return i;
        }
        i = next;
        len += 1;
    }
    i
}

impl Parse {
    pub fn begin(place: Place, mode: Mode, joins: bool) -> Parse
        ensures { result ≡ Rattle.parse.specs.State.begin place mode joins }
    {
        let Cluster { len, chars, info } = Cluster::EMPTY;
        Parse {
            at: place.at,
            done: false,
            again: false,
            flow: Flow::GoOn,
            mode,
            joins,
            len,
            chars,
            info,
        }
    }

    pub fn cluster(self) -> Cluster
        ensures { result ≡ cluster_of self }
    {
        let Parse {
            len,
            chars,
            info,
            ..
        } = self;
        Cluster { len, chars, info }
    }

    // The next place.
    pub fn place(self, text: &[u64]) -> Place
        ensures { result.at ≡ place_of text.now self }
    {
        Place {
            at: if self.done { text.len() } else { self.at },
        }
    }

    pub fn going(self) -> bool
        ensures { result ≡ is_going self.flow }
    {
        matches!(self.flow, Flow::GoOn)
    }

    // A token as one more character, where there is room.
    fn put(mut self, t: u64, class: Shape) -> Parse
        ensures { result ≡ put_of t class self }
    {
        if self.len < 32 {
            self.chars[self.len] = Pushed {
                scalar: token::scalar(t),
                index: token::index(t),
                noted: 0,
                class,
            };
            self.len += 1;
        }
        self
    }

    // A token noted after the last character; where there is none, it becomes one.
    pub(crate) fn noted(mut self, t: u64) -> Parse
        ensures { result ≡ noted_of t self }
    {
        if self.len == 0 {
            return self.put(t, Shape::Other);
        }
        if self.len < 33 {
            let last = self.len - 1;
            self.chars[last].noted = self.chars[last].noted.saturating_add(1);
        }
        self
    }

    // Off the current token, in a text of n.
    fn moved(mut self, n: usize) -> Parse
        ensures { result ≡ moved_of n self }
    {
        if 32 <= self.len {
            self.at = filled_at(self.mode, n, self.at);
            self.flow = Flow::Full;
            return self;
        }
        let next = place_after(n, self.at);
        if n <= next {
            self.done = true;
            self.flow = Flow::End;
            return self;
        }
        self.at = next;
        self
    }

    fn on_joiner(self, text: &[u64]) -> bool
        ensures { result ≡ on_joiner text.now self }
    {
        self.going() && self.joins && token::scalar(self.current(text)) == scalar::CGJ
    }

    // The last token that is pushed where the current one is: of the U+034F behind it, as many as there is room for.
    fn last_pushed(self, text: &[u64]) -> usize
        ensures { result ≡ last_pushed text.now self }
    {
        if self.going() && self.joins && self.len < 32 {
            step_past(text, self.at, self.len + 1)
        } else {
            self.at
        }
    }

    // Push, then step: what the step pushes is pushed here.
    pub(crate) fn push(mut self, text: &[u64], mut class: Shape) -> Parse
        ensures { result ≡ push_of text.now class self }
    {
        let last = self.last_pushed(text);
        while self.at < last {
            self = self.put(self.current(text), class);
            self = self.moved(text.len());
            class = Shape::Other;
        }
        self = self.put(self.current(text), class);
        self = self.moved(text.len());
        self
    }

    // Onto the next token; a U+034F there is pushed, with those behind it.
    pub(crate) fn step(mut self, text: &[u64]) -> Parse
        ensures { result ≡ step_of text.now self }
    {
        self = self.moved(text.len());
        if self.on_joiner(text) {
            self = self.accept_any_as(text, Shape::Other);
        }
        self
    }

    // After a scope: a stop in it ended it alone.
    pub fn resumed(mut self) -> Parse
        ensures { result ≡ resumed_of self }
    {
        self.flow = go_on(self.flow);
        self
    }

    // After a kinzi: the end of the text is passed over where `passes_end` says so.
    pub(crate) fn retried(mut self) -> Parse
        ensures { result ≡ retried_of self }
    {
        if passes_end(self.mode, self.flow, self.again) {
            self.again = true;
            self.flow = Flow::GoOn;
        }
        self
    }
}
