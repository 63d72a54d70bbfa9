// USE class: how the complex parser tells characters apart. The codes of SCOPE 2.2; REST is any class that the parsers do not name.
ghost use Rattle.std.specs.Prelude.{◌≡◌};
ghost use Rattle.classes.specs.UseClass.{use_classes};

pub const B: u8 = 0;

pub const CMAbv: u8 = 1;

pub const CMBlw: u8 = 2;

pub const CS: u8 = 3;

pub const FAbv: u8 = 4;

pub const FBlw: u8 = 5;

pub const FM: u8 = 6;

pub const FPst: u8 = 7;

pub const GB: u8 = 8;

pub const H: u8 = 9;

pub const HN: u8 = 10;

pub const IND: u8 = 11;

pub const MAbv: u8 = 12;

pub const MBlw: u8 = 13;

pub const MPre: u8 = 14;

pub const MPst: u8 = 15;

pub const N: u8 = 16;

pub const O: u8 = 17;

pub const R: u8 = 18;

pub const Rsv: u8 = 19;

pub const S: u8 = 20;

pub const SMAbv: u8 = 21;

pub const SMBlw: u8 = 22;

pub const SUB: u8 = 23;

pub const VAbv: u8 = 24;

pub const VBlw: u8 = 25;

pub const VMAbv: u8 = 26;

pub const VMBlw: u8 = 27;

pub const VMPre: u8 = 28;

pub const VMPst: u8 = 29;

pub const VPre: u8 = 30;

pub const VPst: u8 = 31;

pub const VS: u8 = 32;

pub const WJ: u8 = 33;

pub const ZWJ: u8 = 34;

pub const ZWNJ: u8 = 35;

pub const REST: u8 = 36;

// How many codes there are: a code of this list is below it.
pub const LEN: u8 = 37;

// The codes in order: those of the definitions.
pub fn codes() -> [u8; 37]
    ensures { result ≡ use_classes }
{
    [
        B, CMAbv, CMBlw, CS, FAbv, FBlw, FM, FPst, GB, H, HN, IND, MAbv, MBlw, MPre, MPst, N, O, R,
        Rsv, S, SMAbv, SMBlw, SUB, VAbv, VBlw, VMAbv, VMBlw, VMPre, VMPst, VPre, VPst, VS, WJ, ZWJ,
        ZWNJ, REST,
    ]
}
