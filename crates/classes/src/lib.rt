// The named values of SCOPE: the five lists of classes, the classes that a pushed character gets, the scalars that the parsers name,
// and the two modes. The codes of a list are numbers and no enum: they stand in columns that C lends, where any byte may stand, and a check
// judges them. A constant has no contract, so each list has a function `codes` that holds its constants to the definitions.
#![tactic(auto)]

pub mod category;
pub mod cluster_break;
pub mod myanmar_class;
pub mod scalar;
pub mod use_class;
pub mod word_break;

ghost use Rattle.std.specs.Prelude.{◌≡◌};
ghost use Rattle.classes.specs.Mode.{mode_code};
ghost use Rattle.classes.specs.Shape.{shape_code};

// Crate mode answers as the Rust does; whole mode is ours and repeats no character (SCOPE 1.3).
#[derive(Clone, Copy, Debug, PartialEq, Eq)]
pub enum Mode {
    Crate,
    Whole,
}

// The number by which a caller asks for the mode.
impl From<Mode> for u8 {
    ghost from_gives = { λ mode code. code ≡ mode_code mode };

    fn from(mode: Mode) -> u8 {
        match mode {
            Mode::Crate => 0,
            Mode::Whole => 1,
        }
    }
}

// The class of a pushed character: the `ShapeClass` of the three Rust parsers.
#[derive(Clone, Copy, Debug, PartialEq, Eq)]
pub enum Shape {
    Base,
    Mark,
    Control,
    Reph,
    Kinzi,
    Halant,
    VPre,
    VBlw,
    VMPre,
    MedialRa,
    Anusvara,
    Vs,
    Zwnj,
    Zwj,
    Other,
}

// The number that a full run writes for the class.
impl From<Shape> for u8 {
    ghost from_gives = { λ shape code. code ≡ shape_code shape };

    fn from(shape: Shape) -> u8 {
        match shape {
            Shape::Base => 0,
            Shape::Mark => 1,
            Shape::Control => 2,
            Shape::Reph => 3,
            Shape::Kinzi => 4,
            Shape::Halant => 5,
            Shape::VPre => 6,
            Shape::VBlw => 7,
            Shape::VMPre => 8,
            Shape::MedialRa => 9,
            Shape::Anusvara => 10,
            Shape::Vs => 11,
            Shape::Zwnj => 12,
            Shape::Zwj => 13,
            Shape::Other => 14,
        }
    }
}
