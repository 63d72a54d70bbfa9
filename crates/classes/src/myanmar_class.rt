// Myanmar class: how the Myanmar parser tells characters apart. The codes of SCOPE 2.2; REST is any class that the parsers do not name.
ghost use Rattle.std.specs.Prelude.{◌≡◌};
ghost use Rattle.classes.specs.MyanmarClass.{myanmar_classes};

pub const A: u8 = 0;

pub const As: u8 = 1;

pub const C: u8 = 2;

pub const D: u8 = 3;

pub const D0: u8 = 4;

pub const DB: u8 = 5;

pub const H: u8 = 6;

pub const IV: u8 = 7;

pub const J: u8 = 8;

pub const MH: u8 = 9;

pub const MR: u8 = 10;

pub const MW: u8 = 11;

pub const MY: u8 = 12;

pub const O: u8 = 13;

pub const P: u8 = 14;

pub const PT: u8 = 15;

pub const R: u8 = 16;

pub const S: u8 = 17;

pub const V: u8 = 18;

pub const VAbv: u8 = 19;

pub const VBlw: u8 = 20;

pub const VPre: u8 = 21;

pub const VPst: u8 = 22;

pub const VS: u8 = 23;

pub const WJ: u8 = 24;

pub const REST: u8 = 25;

// How many codes there are: a code of this list is below it.
pub const LEN: u8 = 26;

// The codes in order: those of the definitions.
pub fn codes() -> [u8; 26]
    ensures { result ≡ myanmar_classes }
{
    [
        A, As, C, D, D0, DB, H, IV, J, MH, MR, MW, MY, O, P, PT, R, S, V, VAbv, VBlw, VPre, VPst,
        VS, WJ, REST,
    ]
}
