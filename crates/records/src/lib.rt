// The check of a lent text: refusals 1 to 7 (SCOPE 5.1), in their order, and the check of the runs over two columns, as the word
// run is. Every call of the library begins with one of the two and hands a refusal out unchanged.
#![tactic(auto)]

pub mod cells;
mod judge;
mod sets;
mod sweep;
mod threes;

ghost use Rattle.std.specs.Prelude.{◌≡◌};
ghost use Rattle.records.specs.Text.{lent};
ghost use Rattle.records.specs.Refusals.{verdict, marked_verdict, word_verdict};
ghost use Rattle.records.specs.Numbers.{side_code, parser_code};

use classes::word_break;
use judge::judge_lengths;
pub use judge::{bad_scalar, is_bad_marked, is_khmer, is_outside, is_sign, judge_room, refused};
use sets::{judge_all_marked, judge_each, judge_shape, judge_signs};
use sweep::{is_clean, passes, passes_for};
pub use threes::{is_bad_three, judge_codes, judge_columns};

// What a refusal's index counts.
#[derive(Clone, Copy, Debug, PartialEq, Eq)]
pub enum Side {
    Record,
    Part,
    Neither,
}

// The number that a call tells for the side.
impl From<Side> for u8 {
    ghost from_gives = { λ side code. code ≡ side_code side };

    fn from(side: Side) -> u8 {
        match side {
            Side::Neither => 0,
            Side::Record => 1,
            Side::Part => 2,
        }
    }
}

// Whom the text is checked for: complex with and without Khmer differ in refusal 7.
#[derive(Clone, Copy, Debug, PartialEq, Eq)]
pub enum Parser {
    Simple,
    Myanmar,
    Complex,
    Khmer,
}

// The number by which a caller asks for the parser.
impl From<Parser> for u8 {
    ghost from_gives = { λ parser code. code ≡ parser_code parser };

    fn from(parser: Parser) -> u8 {
        match parser {
            Parser::Simple => 0,
            Parser::Myanmar => 1,
            Parser::Complex => 2,
            Parser::Khmer => 3,
        }
    }
}

// A refusal: its number in the table of SCOPE 5.1, and what it is about; where that is neither a record nor a part, the index is 0. It is
// the error of every call that refuses. The number stays one: C is told it, and the theorems over the table (`ByTable`, `lower_number`) speak
// of all numbers and of their order.
#[derive(Clone, Copy, Debug, PartialEq, Eq)]
pub struct Refusal {
    pub number: u8,
    pub side: Side,
    pub index: usize,
}

// The lent text (SCOPE 2.1): fourteen columns with a cell for each record, and four with a cell for each part.
#[derive(Clone, Copy, Debug, PartialEq, Eq)]
pub struct Columns<'a> {
    pub scalars: &'a [u32],
    pub breaks: &'a [u8],
    pub uses: &'a [u8],
    pub myanmars: &'a [u8],
    pub categories: &'a [u8],
    pub words: &'a [u8],
    pub semojis: &'a [u8],
    pub memojis: &'a [u8],
    pub cemojis: &'a [u8],
    pub pictographs: &'a [u8],
    pub selectors: &'a [u8],
    pub decomposes: &'a [u8],
    pub firsts: &'a [u16],
    pub counts: &'a [u8],
    pub pscalars: &'a [u32],
    pub pbreaks: &'a [u8],
    pub puses: &'a [u8],
    pub pcategories: &'a [u8],
}

// The cells of one record.
#[derive(Clone, Copy, Debug, PartialEq, Eq)]
pub struct Row {
    pub scalar: u32,
    pub breaks: u8,
    pub uses: u8,
    pub myanmar: u8,
    pub category: u8,
    pub word: u8,
    pub semoji: u8,
    pub memoji: u8,
    pub cemoji: u8,
    pub pictograph: u8,
    pub selector: u8,
    pub decompose: u8,
    pub first: u16,
    pub count: u8,
}

// The cells of one part.
#[derive(Clone, Copy, Debug, PartialEq, Eq)]
pub struct PartRow {
    pub scalar: u32,
    pub breaks: u8,
    pub uses: u8,
    pub category: u8,
}

// The longest column that is accepted.
pub const MOST: usize = 4096;

// The verdict on a whole text.
#[tactic(auto, using(crate::proofs::Passing::both_pass, crate::proofs::Passing::both_pass_for), unfolding(crate::specs::Refusals::verdict))]
pub fn check(parser: Parser, columns: &Columns) -> Result<(), Refusal>
    ensures { result ≡ verdict parser (lent columns.now) }
{
    judge_shape(columns)?;
    if passes(columns) || passes_for(parser, columns) {
        return judge_signs(parser, columns);
    }
    judge_each(parser, columns)
}

#[tactic(auto, unfolding(crate::specs::Refusals::marked_verdict))]
fn check_each(len: u8, classes: &[u8], marks: &[u8]) -> Result<(), Refusal>
    ensures { result ≡ marked_verdict len classes.now marks.now }
{
    judge_lengths(&[classes.len(), marks.len()], &[])?;
    judge_all_marked(len, classes, marks)
}

// The verdict on two columns, the classes of one list, of this length, and marks: both are looked through in one loop without a branch,
// and only where something is found does the exact check name it.
pub fn check_marked(len: u8, classes: &[u8], marks: &[u8]) -> Result<(), Refusal>
    ensures { result ≡ marked_verdict len classes.now marks.now }
{
    if is_clean(len, classes, marks) {
        return Ok(());
    }
    check_each(len, classes, marks)
}

// The verdict on the two columns of a word run.
pub fn check_words(words: &[u8], pictographs: &[u8]) -> Result<(), Refusal>
    ensures { result ≡ word_verdict words.now pictographs.now }
{
    check_marked(word_break::LEN, words, pictographs)
}
