// Word class: how the word machine tells characters apart. The codes of SCOPE 2.2.
ghost use Rattle.std.specs.Prelude.{◌≡◌};
ghost use Rattle.classes.specs.WordBreak.{word_breaks};

pub const Other: u8 = 0;

pub const CR: u8 = 1;

pub const LF: u8 = 2;

pub const NL: u8 = 3;

pub const Extend: u8 = 4;

pub const ZWJ: u8 = 5;

pub const FO: u8 = 6;

pub const WSegSpace: u8 = 7;

pub const ALetter: u8 = 8;

pub const HL: u8 = 9;

pub const ML: u8 = 10;

pub const MidNumLet: u8 = 11;

pub const MN: u8 = 12;

pub const NU: u8 = 13;

pub const SQ: u8 = 14;

pub const DQ: u8 = 15;

pub const KA: u8 = 16;

pub const EX: u8 = 17;

pub const RI: u8 = 18;

// How many codes there are: a code of this list is below it.
pub const LEN: u8 = 19;

// The codes in order: those of the definitions.
pub fn codes() -> [u8; 19]
    ensures { result ≡ word_breaks }
{
    [
        Other, CR, LF, NL, Extend, ZWJ, FO, WSegSpace, ALetter, HL, ML, MidNumLet, MN, NU, SQ, DQ,
        KA, EX, RI,
    ]
}
