// A token of the stream in one number, so that the parsers read one column: what they ask of a character, and the record that it
// came from. Each field is taken out by a quotient and a remainder. It is a `u64` and no type of its own, since a text is a list of numbers
// in the definitions of the grammars and their theorems; and a mark is 0 or 1 and no `bool`, as the lent columns have it.
#![tactic(auto)]

ghost use Rattle.std.specs.Prelude.{◌≡◌};
ghost use Rattle.token.specs.Token.{scalar_of, kind_of, break_of, category_of, emoji_of, selector_of, index_of, packed};

// The scalar.
pub fn scalar(t: u64) -> u32
    ensures { result ≡ scalar_of t }
{
    (t % 0x20_0000) as u32
}

// The class that the parser goes by: cluster break, Myanmar class or USE class.
pub fn kind(t: u64) -> u8
    ensures { result ≡ kind_of t }
{
    (t / 0x20_0000 % 64) as u8
}

// The cluster break, which every emoji extension goes by.
pub fn break_class(t: u64) -> u8
    ensures { result ≡ break_of t }
{
    (t / 0x800_0000 % 16) as u8
}

pub fn category(t: u64) -> u8
    ensures { result ≡ category_of t }
{
    (t / 0x8000_0000 % 4) as u8
}

// 1 where the parser takes the token for an emoji, else 0.
pub fn emoji(t: u64) -> u8
    ensures { result ≡ emoji_of t }
{
    (t / 0x2_0000_0000 % 2) as u8
}

// 1 for a variation selector, else 0.
pub fn selector(t: u64) -> u8
    ensures { result ≡ selector_of t }
{
    (t / 0x4_0000_0000 % 2) as u8
}

// The index of the record that the token came from.
pub fn index(t: u64) -> u16
    ensures { result ≡ index_of t }
{
    (t / 0x8_0000_0000 % 4096) as u16
}

// The token of these fields; what is too large for its field loses its high part.
pub fn pack(
    scalar: u32,
    kind: u8,
    brk: u8,
    category: u8,
    emoji: u8,
    selector: u8,
    index: u16,
) -> u64
    ensures { result ≡ packed scalar kind brk category emoji selector index }
{
    let low = (scalar as u64) % 0x20_0000
        + (kind as u64) % 64 * 0x20_0000
        + (brk as u64) % 16 * 0x800_0000;
    let marks = (category as u64) % 4 + (emoji as u64) % 2 * 4 + (selector as u64) % 2 * 8;
    low + marks * 0x8000_0000 + (index as u64) % 4096 * 0x8_0000_0000
}
