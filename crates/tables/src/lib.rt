// The tables of the grammars (written by tools/tables), the symbols that they tell tokens apart by, and what makes a token regular.
#![tactic(auto, unfolding(crate::specs::Symbols::special, crate::specs::Symbols::emoji_symbol, crate::specs::Symbols::other_in, crate::specs::Symbols::simple_in, crate::specs::Symbols::use_symbol, crate::specs::Symbols::use_in, crate::specs::Symbols::regular_myanmar, crate::specs::Symbols::regular_use))]

pub mod complex_table;
pub mod khmer_table;
pub mod myanmar_table;
pub mod simple_table;

ghost use Rattle.std.specs.Prelude.{◌≡◌, ◌<◌, ◌≤◌};
ghost use Rattle.tables.specs.Symbols.{special, emoji_symbol, other_in, other_symbol, use_other, implies, simple_in, simple_symbol, is_khmer_coeng, use_symbol, regular_myanmar, regular_use};

use classes::{category, cluster_break, myanmar_class, scalar, use_class};
use myanmar::begins_kinzi;

fn special_of(x: u32) -> usize
    ensures { (result ≡ special x) × (result < 4) }
{
    match x {
        scalar::ZWNJ => 1,
        scalar::VS15 => 2,
        scalar::VS16 => 3,
        _ => 0,
    }
}

// What an emoji's extension asks of a token.
pub fn emoji_symbol(t: u64) -> usize
    ensures { (result ≡ emoji_symbol t) × (result < 6) }
{
    match token::break_class(t) {
        cluster_break::EX => 1 + special_of(token::scalar(t)),
        cluster_break::ZWJ => 5,
        _ => 0,
    }
}

// A token of class O, by what the arm O makes of it.
fn other_symbol(first: usize, base: usize, t: u64) -> usize
    requires { (first ≤ 38) × (base < 38) }
    ensures { (result ≡ other_in first base t) × (result < 43) }
{
    let x = token::scalar(t);
    if x == scalar::CR {
        return first;
    }
    if x == scalar::LF {
        return first + 1;
    }
    match token::category(t) {
        category::Format if x == scalar::ZWNJ => first + 2,
        category::Format if x == scalar::ZWJ => first + 3,
        category::Format | category::Control => first + 4,
        _ => base,
    }
}

pub fn myanmar_other(t: u64) -> usize
    ensures { (result ≡ other_symbol t) × (result < 43) }
{
    other_symbol(27, 13, t)
}

fn use_other(t: u64) -> usize
    ensures { (result ≡ use_other t) × (result < 43) }
{
    other_symbol(38, 17, t)
}

fn simple_in(kind: usize, emoji: usize, rare: usize) -> usize
    requires { (kind < 64) × ((emoji < 2) × (rare < 8)) }
    ensures { (result ≡ simple_in kind emoji rare) × (result < 128) }
{
    if rare == 0 {
        return kind + 14 * emoji;
    }
    if kind == 10 {
        return 27 + 7 * emoji + rare;
    }
    kind + 14 * emoji
}

// The symbol of the simple parser. What is rare matters with EX alone, and is looked at there alone.
pub fn simple_symbol(t: u64) -> usize
    ensures { (result ≡ simple_symbol t) × (result < 128) }
{
    let kind = token::kind(t) as usize;
    let emoji = token::emoji(t) as usize;
    if kind == 10 {
        let x = special_of(token::scalar(t));
        return simple_in(kind, emoji, token::selector(t) as usize + 2 * x);
    }
    kind + 14 * emoji
}

fn is_coeng(khmer: bool, x: u32) -> bool
    ensures { result ≡ is_khmer_coeng khmer x }
{
    khmer && x == scalar::COENG
}

// The symbol of the complex parser, with and without Khmer.
pub fn use_symbol(khmer: bool, t: u64) -> usize
    ensures { (result ≡ use_symbol khmer t) × (result < 64) }
{
    if token::emoji(t) == 1 {
        return 37;
    }
    let kind = token::kind(t);
    if kind == use_class::O {
        return use_other(t);
    }
    if is_coeng(khmer, token::scalar(t)) {
        return 43;
    }
    kind as usize
}

fn implied(a: bool, b: bool) -> bool
    ensures { result ≡ implies a b }
{
    !a | b
}

// Whether a token of the Myanmar parser is regular, by its cells: `&` and no `&&`, so that the passes over whole columns have no branch.
pub fn is_regular_myanmar(x: u32, kind: u8, emoji: u8) -> bool
    ensures { result ≡ regular_myanmar x kind emoji }
{
    implied(emoji == 1, kind == myanmar_class::O)
        & implied(begins_kinzi(x), kind == myanmar_class::C)
        & implied(x == scalar::LF, (kind == myanmar_class::O) & (emoji == 0))
}

// The same of the complex parser.
pub fn is_regular_use(khmer: bool, x: u32, kind: u8, emoji: u8) -> bool
    ensures { result ≡ regular_use khmer x kind emoji }
{
    implied(emoji == 1, kind == use_class::O)
        & implied(is_coeng(khmer, x), kind == use_class::H)
        & implied(x == scalar::LF, (kind == use_class::O) & (emoji == 0))
}
