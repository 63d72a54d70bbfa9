// Line class: how the line table tells characters apart. The codes of SCOPE 12.1.
ghost use Rattle.std.specs.Prelude.{◌≡◌};
ghost use Rattle.lines.specs.LineBreak.{line_breaks};

pub const AI: u8 = 0;

pub const AL: u8 = 1;

pub const B2: u8 = 2;

pub const BA: u8 = 3;

pub const BB: u8 = 4;

pub const BK: u8 = 5;

pub const CB: u8 = 6;

pub const CJ: u8 = 7;

pub const CL: u8 = 8;

pub const CM: u8 = 9;

pub const CP: u8 = 10;

pub const CR: u8 = 11;

pub const EB: u8 = 12;

pub const EM: u8 = 13;

pub const EX: u8 = 14;

pub const GL: u8 = 15;

pub const H2: u8 = 16;

pub const H3: u8 = 17;

pub const HL: u8 = 18;

pub const HY: u8 = 19;

pub const ID: u8 = 20;

pub const IN: u8 = 21;

pub const IS: u8 = 22;

pub const JL: u8 = 23;

pub const JT: u8 = 24;

pub const JV: u8 = 25;

pub const LF: u8 = 26;

pub const NL: u8 = 27;

pub const NS: u8 = 28;

pub const NU: u8 = 29;

pub const OP: u8 = 30;

pub const PO: u8 = 31;

pub const PR: u8 = 32;

pub const QU: u8 = 33;

pub const RI: u8 = 34;

pub const SA: u8 = 35;

pub const SG: u8 = 36;

pub const SP: u8 = 37;

pub const SY: u8 = 38;

pub const WJ: u8 = 39;

pub const XX: u8 = 40;

pub const ZW: u8 = 41;

pub const ZWJ: u8 = 42;

// How many codes there are: a code of this list is below it.
pub const LEN: u8 = 43;

// The codes in order: those of the definitions.
pub fn codes() -> [u8; 43]
    ensures { result ≡ line_breaks }
{
    [
        AI, AL, B2, BA, BB, BK, CB, CJ, CL, CM, CP, CR, EB, EM, EX, GL, H2, H3, HL, HY, ID, IN, IS,
        JL, JT, JV, LF, NL, NS, NU, OP, PO, PR, QU, RI, SA, SG, SP, SY, WJ, XX, ZW, ZWJ,
    ]
}
