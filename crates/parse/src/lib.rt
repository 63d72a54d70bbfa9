// The cluster under construction: what a call of a parser changes as it goes, and what it hands back. The three grammars are
// built of its methods, which carry the names that they have in the Rust.
#![tactic(auto)]

pub mod actions;
pub mod asks;
pub mod class_o;
pub mod emoji_loop;
pub mod state;

ghost use Rattle.std.specs.Prelude.{◌≡◌};
ghost use Rattle.parse.specs.Emoji.{emoji_code};
ghost use Rattle.parse.specs.Space.{space_code, space_scalar};
ghost use Rattle.parse.specs.State.{empty_cluster, start_place};

use classes::{Mode, Shape};

// The answer of each part of a parser, for the Rust's `Option<()>`: it goes on, or stopped of its own, or the cluster has 32, or
// the text ended.
#[derive(Clone, Copy, Debug, PartialEq, Eq)]
pub enum Flow {
    GoOn,
    Stop,
    Full,
    End,
}

#[derive(Clone, Copy, Debug, PartialEq, Eq)]
pub enum Emoji {
    None,
    Default,
    Text,
    Color,
}

// The number that a stepping call tells for the emoji.
impl From<Emoji> for u8 {
    ghost from_gives = { λ emoji code. code ≡ emoji_code emoji };

    fn from(emoji: Emoji) -> u8 {
        match emoji {
            Emoji::None => 0,
            Emoji::Default => 1,
            Emoji::Text => 2,
            Emoji::Color => 3,
        }
    }
}

#[derive(Clone, Copy, Debug, PartialEq, Eq)]
pub enum Space {
    None,
    Newline,
    From(u32),
}

impl Space {
    // The numbers that a stepping call tells for the space: its kind, and the scalar that it is from.
    pub fn code(self) -> u8
        ensures { result ≡ space_code self }
    {
        match self {
            Space::None => 0,
            Space::Newline => 1,
            Space::From(_) => 2,
        }
    }

    pub fn scalar(self) -> u32
        ensures { result ≡ space_scalar self }
    {
        match self {
            Space::None => 0,
            Space::Newline => 0,
            Space::From(scalar) => scalar,
        }
    }
}

#[derive(Clone, Copy, Debug, PartialEq, Eq)]
pub struct Info {
    pub emoji: Emoji,
    pub space: Space,
    pub broken: bool,
    pub normalise: bool,
}

// A character of the cluster: its scalar, the index of its record, how many tokens are noted directly after it, its shape class.
#[derive(Clone, Copy, Debug, PartialEq, Eq)]
pub struct Pushed {
    pub scalar: u32,
    pub index: u16,
    pub noted: u16,
    pub class: Shape,
}

#[derive(Clone, Copy, Debug, PartialEq, Eq)]
pub struct Cluster {
    pub len: usize,
    pub chars: [Pushed; 32],
    pub info: Info,
}

impl Cluster {
    pub const EMPTY: Cluster = Cluster {
        len: 0,
        chars: [Pushed {
            scalar: 0,
            index: 0,
            noted: 0,
            class: Shape::Base,
        }; 32],
        info: Info {
            emoji: Emoji::None,
            space: Space::None,
            broken: false,
            normalise: false,
        },
    };

    // A constant has no contract; this says what it is.
    pub fn empty() -> Cluster
        ensures { result ≡ empty_cluster }
    {
        Cluster::EMPTY
    }
}

// A token's number in the stream, or the number of tokens, which is the end.
#[derive(Clone, Copy, Debug, PartialEq, Eq)]
pub struct Place {
    pub at: usize,
}

impl Place {
    pub const START: Place = Place { at: 0 };

    // A constant has no contract; this says what it is.
    pub fn start() -> Place
        ensures { result ≡ start_place }
    {
        Place::START
    }
}

// A call under way. `done` is the Rust's: the text has ended, and `at` stays on its last token. `again` says that this token is
// read a second time, repeat (b). `joins` says whether U+034F is stepped over. One flat struct with no `Cluster` in it, as the definitions
// of specs/State.antt and the theorems over them have it.
//
// It has 424 bytes, and the compiler gives each variable that holds one a place of its own on the stack. So a function that asks between
// its steps takes them in one variable, `s = s.accept(..);`, and the steps of a push are in one function that is kept whole.
#[derive(Clone, Copy)]
pub struct Parse {
    pub at: usize,
    pub done: bool,
    pub again: bool,
    pub flow: Flow,
    pub mode: Mode,
    pub joins: bool,
    pub len: usize,
    pub chars: [Pushed; 32],
    pub info: Info,
}
