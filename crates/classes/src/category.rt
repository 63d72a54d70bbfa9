// Category: what becomes of a character that no grammar takes, class O. The codes of SCOPE 2.2.
ghost use Rattle.std.specs.Prelude.{◌≡◌};
ghost use Rattle.classes.specs.Category.{categories};

pub const Other: u8 = 0;

pub const Format: u8 = 1;

pub const Control: u8 = 2;

// How many codes there are: a code of this list is below it.
pub const LEN: u8 = 3;

// The codes in order: those of the definitions.
pub fn codes() -> [u8; 3]
    ensures { result ≡ categories }
{
    [Other, Format, Control]
}
