// The scalars that the parsers name.
// U+000D, carriage return
pub const CR: u32 = 0x0D;
// U+000A, line feed
pub const LF: u32 = 0x0A;
// U+034F, combining grapheme joiner: stepped over by the complex and the Myanmar parser
pub const CGJ: u32 = 0x034F;
// U+200C, zero width non-joiner
pub const ZWNJ: u32 = 0x200C;
// U+200D, zero width joiner
pub const ZWJ: u32 = 0x200D;
// U+FE0E, variation selector 15: the emoji before it is shown as text
pub const VS15: u32 = 0xFE0E;
// U+FE0F, variation selector 16: the emoji before it is shown in color
pub const VS16: u32 = 0xFE0F;
// U+1004, Myanmar letter nga, the first of a kinzi
pub const NGA: u32 = 0x1004;
// U+101B, Myanmar letter ra, the first of a kinzi
pub const RA: u32 = 0x101B;
// U+105A, Myanmar letter Mon nga, the first of a kinzi
pub const MON_NGA: u32 = 0x105A;
// U+103A, Myanmar sign asat, the second of a kinzi
pub const ASAT: u32 = 0x103A;
// U+1039, Myanmar sign virama, the third of a kinzi
pub const VIRAMA: u32 = 0x1039;
// U+17D2, Khmer sign coeng
pub const COENG: u32 = 0x17D2;
// U+17C1, Khmer vowel sign e, the lent part of the five signs below
pub const KHMER_E: u32 = 0x17C1;
// U+17BE, Khmer vowel sign oe
pub const KHMER_OE: u32 = 0x17BE;
// U+17BF, Khmer vowel sign ya
pub const KHMER_YA: u32 = 0x17BF;
// U+17C0, Khmer vowel sign ie
pub const KHMER_IE: u32 = 0x17C0;
// U+17C4, Khmer vowel sign oo
pub const KHMER_OO: u32 = 0x17C4;
// U+17C5, Khmer vowel sign au
pub const KHMER_AU: u32 = 0x17C5;
