// Whether the records are the tokens, and regular ones, or split into regular ones: passes over the columns with no branch and no early
// exit. Simple needs none.
#![tactic(auto, unfolding(tables::specs::Symbols::use_regular))]

ghost use Rattle.std.specs.Prelude.{◌≡◌, true, false, length};
ghost use Rattle.records.specs.Text.{lent};
ghost use Rattle.records.specs.Sound.{Sound};
ghost use Rattle.tables.specs.Symbols.{regular_myanmar, regular_use, Regular};
ghost use Rattle.segment.specs.Seen.{Single, AllMyanmar, AllUse, AllParts, AllSingle, UseIn, PartsIn, SingleIn, Direct, use_parser};
ghost use Rattle.segment.specs.Standing.{Splits};

use classes::Mode;
use records::{Columns, Parser};
use stream::is_split_sign;
use tables::{is_regular_myanmar, is_regular_use};

// 0 for a regular record, else 1: a number, so that the loop has no branch.
fn odd_myanmar(x: u32, kind: u8, emoji: u8) -> u32
    ensures { result ≡ 0 → regular_myanmar x kind emoji ≡ true }
{
    u32::from(!is_regular_myanmar(x, kind, emoji))
}

fn odd_use(khmer: bool, x: u32, kind: u8, emoji: u8) -> u32
    ensures { result ≡ 0 → regular_use khmer x kind emoji ≡ true }
{
    u32::from(!is_regular_use(khmer, x, kind, emoji))
}

// 0 for a record that is not split, else a number that is not 0.
fn odd_split(khmer: bool, x: u32, decompose: u8) -> u32
    ensures { result ≡ 0 → Single khmer x decompose }
{
    u32::from(decompose == 1) | u32::from(is_split_sign(khmer, x))
}

fn all_myanmar(scalars: &[u32], kinds: &[u8], emojis: &[u8]) -> bool
    requires { (length kinds.now ≡ length scalars.now) × (length emojis.now ≡ length scalars.now) }
    ensures { result ≡ true → AllMyanmar scalars.now kinds.now emojis.now }
{
    let mut odd: u32 = 0;
    for i in 0..scalars.len() {
        odd |= odd_myanmar(scalars[i], kinds[i], emojis[i]);
    }
    odd == 0
}

fn all_use(khmer: bool, scalars: &[u32], kinds: &[u8], emojis: &[u8]) -> bool
    requires { (length kinds.now ≡ length scalars.now) × (length emojis.now ≡ length scalars.now) }
    ensures { result ≡ true → AllUse khmer scalars.now kinds.now emojis.now }
{
    let mut odd: u32 = 0;
    for i in 0..scalars.len() {
        odd |= odd_use(khmer, scalars[i], kinds[i], emojis[i]);
    }
    odd == 0
}

fn all_parts(khmer: bool, scalars: &[u32], kinds: &[u8]) -> bool
    requires { length kinds.now ≡ length scalars.now }
    ensures { result ≡ true → AllParts khmer scalars.now kinds.now }
{
    let mut odd: u32 = 0;
    for i in 0..scalars.len() {
        odd |= odd_use(khmer, scalars[i], kinds[i], 0);
    }
    odd == 0
}

fn all_single(khmer: bool, scalars: &[u32], decomposes: &[u8]) -> bool
    requires { length decomposes.now ≡ length scalars.now }
    ensures { result ≡ true → AllSingle khmer scalars.now decomposes.now }
{
    let mut odd: u32 = 0;
    for i in 0..scalars.len() {
        odd |= odd_split(khmer, scalars[i], decomposes[i]);
    }
    odd == 0
}

// Whether the records of the complex parser are regular, and none is split; or whether they and the parts are regular.
fn use_direct(khmer: bool, parser: Parser, columns: &Columns) -> bool
    requires { Sound parser (lent columns.now) }
    ensures { result ≡ true → SingleIn khmer (lent columns.now) × UseIn khmer (lent columns.now) }
{
    all_single(khmer, columns.scalars, columns.decomposes)
        && all_use(khmer, columns.scalars, columns.uses, columns.cemojis)
}

fn use_parted(khmer: bool, parser: Parser, columns: &Columns) -> bool
    requires { Sound parser (lent columns.now) }
    ensures { result ≡ true → PartsIn khmer (lent columns.now) × UseIn khmer (lent columns.now) }
{
    all_parts(khmer, columns.pscalars, columns.puses)
        && all_use(khmer, columns.scalars, columns.uses, columns.cemojis)
}

// The records of an accepted text.
pub(crate) fn is_direct(parser: Parser, mode: Mode, columns: &Columns) -> bool
    requires { Sound parser (lent columns.now) }
    ensures { result ≡ true → Direct mode parser (lent columns.now) }
{
    match parser {
        Parser::Simple => true,
        Parser::Myanmar => all_myanmar(columns.scalars, columns.myanmars, columns.memojis),
        Parser::Complex => use_direct(false, parser, columns),
        Parser::Khmer => use_direct(true, parser, columns),
    }
}

// Whether the tokens of an accepted text are regular, though its records are not the tokens.
pub(crate) fn is_parted(direct: bool, parser: Parser, mode: Mode, columns: &Columns) -> bool
    requires { Sound parser (lent columns.now) }
    ensures { Splits result parser mode (lent columns.now) }
{
    if direct {
        return false;
    }
    match parser {
        Parser::Simple | Parser::Myanmar => false,
        Parser::Complex => use_parted(false, parser, columns),
        Parser::Khmer => use_parted(true, parser, columns),
    }
}

// The tokens of an array, of the complex parser.
pub(crate) fn all_regular(khmer: bool, text: &[u64]) -> bool
    ensures { result ≡ true → Regular (use_parser khmer) text.now }
{
    text.iter().all(|&t| is_regular(khmer, t))
}

fn is_regular(khmer: bool, t: u64) -> bool
    ensures { result ≡ Rattle.tables.specs.Symbols.use_regular khmer t }
{
    let kind = token::kind(t);
    kind < classes::use_class::LEN && is_regular_use(khmer, token::scalar(t), kind, token::emoji(t))
}
