// The tests of `check_word`, each under the number of its rule in UAX #29: a is the class before, b the record's own.
ghost use Rattle.std.specs.Prelude.{◌≡◌};
ghost use Rattle.words.specs.Rules.{crlf, by_newline, zwj_pictograph, space_run, letter_run, mid_letter, hebrew_single, hebrew_double, number_run, mid_number, katakana_run, to_extender, from_extender};

use crate::sets::{
    is_between_letters, is_between_numbers, is_extendable, is_letter, is_letter_or_number,
    is_newline, is_next, is_next_letter,
};
use classes::word_break;

// WB3
pub fn is_crlf(a: u8, b: u8) -> bool
    ensures { result ≡ crlf a b }
{
    a == word_break::CR && b == word_break::LF
}

// WB3a, WB3b
pub fn is_by_newline(a: u8, b: u8) -> bool
    ensures { result ≡ by_newline a b }
{
    is_newline(a) || is_newline(b)
}

// WB3c
pub fn is_zwj_pictograph(a: u8, pictograph: u8) -> bool
    ensures { result ≡ zwj_pictograph a pictograph }
{
    a == word_break::ZWJ && pictograph == 1
}

// WB3d
pub fn is_space_run(a: u8, b: u8) -> bool
    ensures { result ≡ space_run a b }
{
    a == word_break::WSegSpace && b == word_break::WSegSpace
}

// WB5, WB9
pub fn is_letter_run(a: u8, b: u8) -> bool
    ensures { result ≡ letter_run a b }
{
    is_letter(a) && is_letter_or_number(b)
}

// WB6, WB7
pub fn is_mid_letter(a: u8, b: u8, next: Option<u8>) -> bool
    ensures { result ≡ mid_letter a b next }
{
    is_letter(a) && is_between_letters(b) && is_next_letter(next)
}

// WB7a
pub fn is_hebrew_single(a: u8, b: u8) -> bool
    ensures { result ≡ hebrew_single a b }
{
    a == word_break::HL && b == word_break::SQ
}

// WB7b, WB7c
pub fn is_hebrew_double(a: u8, b: u8, next: Option<u8>) -> bool
    ensures { result ≡ hebrew_double a b next }
{
    a == word_break::HL && b == word_break::DQ && is_next(next, word_break::HL)
}

// WB8, WB10
pub fn is_number_run(a: u8, b: u8) -> bool
    ensures { result ≡ number_run a b }
{
    a == word_break::NU && is_letter_or_number(b)
}

// WB11, WB12
pub fn is_mid_number(a: u8, b: u8, next: Option<u8>) -> bool
    ensures { result ≡ mid_number a b next }
{
    a == word_break::NU && is_between_numbers(b) && is_next(next, word_break::NU)
}

// WB13
pub fn is_katakana_run(a: u8, b: u8) -> bool
    ensures { result ≡ katakana_run a b }
{
    a == word_break::KA && b == word_break::KA
}

// WB13a
pub fn is_to_extender(a: u8, b: u8) -> bool
    ensures { result ≡ to_extender a b }
{
    b == word_break::EX && (a == word_break::EX || is_extendable(a))
}

// WB13b
pub fn is_from_extender(a: u8, b: u8) -> bool
    ensures { result ≡ from_extender a b }
{
    a == word_break::EX && is_extendable(b)
}
