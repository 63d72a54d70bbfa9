// Conjunct code: a character's part in a conjunct, Indic_Conjunct_Break of Unicode 15.1. The codes of SCOPE 12.6.

pub const None: u8 = 0;

pub const Consonant: u8 = 1;

pub const Linker: u8 = 2;

pub const Extend: u8 = 3;

// How many codes there are: a code of this list is below it.
pub const LEN: u8 = 4;
