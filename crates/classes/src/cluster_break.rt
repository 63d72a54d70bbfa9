// Cluster break: how the simple parser, and every emoji extension, tells characters apart. The codes of SCOPE 2.2.
ghost use Rattle.std.specs.Prelude.{◌≡◌};
ghost use Rattle.classes.specs.ClusterBreak.{cluster_breaks};

pub const XX: u8 = 0;

pub const CN: u8 = 1;

pub const CR: u8 = 2;

pub const LF: u8 = 3;

pub const L: u8 = 4;

pub const V: u8 = 5;

pub const T: u8 = 6;

pub const LV: u8 = 7;

pub const LVT: u8 = 8;

pub const RI: u8 = 9;

pub const EX: u8 = 10;

pub const SM: u8 = 11;

pub const ZWJ: u8 = 12;

pub const PP: u8 = 13;

// How many codes there are: a code of this list is below it.
pub const LEN: u8 = 14;

// The codes in order: those of the definitions.
pub fn codes() -> [u8; 14]
    ensures { result ≡ cluster_breaks }
{
    [XX, CN, CR, LF, L, V, T, LV, LVT, RI, EX, SM, ZWJ, PP]
}
