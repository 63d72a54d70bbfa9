// The sets of word classes that the rules name, for a record's class and for the class that may follow it.
ghost use Rattle.std.specs.Prelude.{◌≡◌, [], ◌∷◌};
ghost use Rattle.basics.specs.Sets.{member};
ghost use Rattle.classes.specs.WordBreak.{ML, MN, NU, KA};
ghost use Rattle.words.specs.Rules.{AHLetter, MidNumLetQ, newlines, ignorable, next_in};

use classes::word_break;

pub fn is_newline(class: u8) -> bool
    ensures { result ≡ member newlines class }
{
    matches!(class, word_break::NL | word_break::CR | word_break::LF)
}

pub fn is_ignorable(class: u8) -> bool
    ensures { result ≡ member ignorable class }
{
    matches!(class, word_break::Extend | word_break::FO | word_break::ZWJ)
}

pub fn is_letter(class: u8) -> bool
    ensures { result ≡ member AHLetter class }
{
    matches!(class, word_break::ALetter | word_break::HL)
}

pub fn is_letter_or_number(class: u8) -> bool
    ensures { result ≡ member (NU ∷ AHLetter) class }
{
    class == word_break::NU || is_letter(class)
}

pub fn is_extendable(class: u8) -> bool
    ensures { result ≡ member (KA ∷ NU ∷ AHLetter) class }
{
    class == word_break::KA || is_letter_or_number(class)
}

pub fn is_mid_num_let_q(class: u8) -> bool
    ensures { result ≡ member MidNumLetQ class }
{
    matches!(class, word_break::MidNumLet | word_break::SQ)
}

pub fn is_between_letters(class: u8) -> bool
    ensures { result ≡ member (ML ∷ MidNumLetQ) class }
{
    class == word_break::ML || is_mid_num_let_q(class)
}

pub fn is_between_numbers(class: u8) -> bool
    ensures { result ≡ member (MN ∷ MidNumLetQ) class }
{
    class == word_break::MN || is_mid_num_let_q(class)
}

pub(crate) fn is_next_letter(next: Option<u8>) -> bool
    ensures { result ≡ next_in AHLetter next }
{
    next.is_some_and(is_letter)
}

// Whether the next record is of just this class.
pub(crate) fn is_next(next: Option<u8>, one: u8) -> bool
    ensures { result ≡ next_in (one ∷ []) next }
{
    next == Some(one)
}
