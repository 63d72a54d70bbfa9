// Items with one blank between, each of fields with one comma between: whether they are of the layout, and their number.
#![tactic(auto, unfolding(crate::specs::Items::fits, crate::specs::Items::record_field, crate::specs::Items::part_field, crate::specs::Items::state_field, crate::specs::Items::dash_or, crate::specs::Items::row_field, crate::specs::Items::cell_field, crate::specs::Items::is_field, crate::specs::Items::item_count))]

ghost use Rattle.std.specs.Prelude.{◌≡◌, ◌≤◌};
ghost use Rattle.cases.specs.Numbers.{radix_of};
ghost use Rattle.cases.specs.Items as Items;
ghost use Rattle.cases.specs.Items.{commas_of, record_field, part_field, state_field, dash_or, row_field, cell_field, is_field, is_item, most_blocks, most_of, item_count, items_of};

use crate::blocks::is_block;
use crate::numbers::{Base, MOST16, read_number};
use crate::spans::{count, letter, next_of, span, span_at};
use records::MOST;

// What an item is.
#[derive(Clone, Copy)]
pub enum Kind {
    Record,
    Part,
    Word,
    State,
    // A record of `next`: line class, word class, pictograph.
    Joint,
    // A line state: the row, and the class before or -.
    Row,
    // The class of the next record or -.
    Ahead,
    // A table's cell, or so many of them.
    Cell,
    // The cells of two sets of ranges.
    Sets,
    // A file's letter, and bytes of it.
    Block,
    // A scalar alone.
    Scalar,
}

fn commas(kind: Kind) -> usize
    ensures value { result ≡ commas_of kind }
    ensures upper_bound { result ≤ 13 }
{
    match kind {
        Kind::Record => 13,
        Kind::Part | Kind::State => 3,
        Kind::Joint => 2,
        Kind::Word | Kind::Row | Kind::Sets => 1,
        Kind::Ahead | Kind::Cell | Kind::Block | Kind::Scalar => 0,
    }
}

pub(crate) fn fits(digits: &[u8], base: Base, most: u32) -> bool
    ensures { result ≡ Items.fits (radix_of base) most digits.now }
{
    read_number(digits, base, most).is_some()
}

fn is_record_field(k: usize, digits: &[u8]) -> bool
    ensures { result ≡ record_field k digits.now }
{
    match k {
        0 => fits(digits, Base::Hexadecimal, u32::MAX),
        12 => fits(digits, Base::Decimal, MOST16),
        _ => fits(digits, Base::Decimal, 255),
    }
}

fn is_part_field(k: usize, digits: &[u8]) -> bool
    ensures { result ≡ part_field k digits.now }
{
    match k {
        0 => fits(digits, Base::Hexadecimal, u32::MAX),
        _ => fits(digits, Base::Decimal, 255),
    }
}

fn is_state_field(k: usize, digits: &[u8]) -> bool
    ensures { result ≡ state_field k digits.now }
{
    match k {
        0 | 2 => fits(digits, Base::Decimal, 1),
        _ => fits(digits, Base::Decimal, 255),
    }
}

// "- or a decimal up to 255"
fn is_dash_or(digits: &[u8]) -> bool
    ensures { result ≡ dash_or digits.now }
{
    letter(digits) == b'-' || fits(digits, Base::Decimal, 255)
}

fn is_row_field(k: usize, digits: &[u8]) -> bool
    ensures { result ≡ row_field k digits.now }
{
    match k {
        0 => fits(digits, Base::Decimal, 255),
        _ => is_dash_or(digits),
    }
}

// "cell or COUNT*cell"
fn is_cell_field(digits: &[u8]) -> bool
    ensures { result ≡ cell_field digits.now }
{
    match count(digits, b'*') {
        0 => fits(digits, Base::Decimal, 255),
        1 => {
            fits(span(digits, b'*', 0), Base::Decimal, MOST16)
                && fits(span(digits, b'*', 1), Base::Decimal, 255)
        }
        _ => false,
    }
}

fn is_field(kind: Kind, k: usize, digits: &[u8]) -> bool
    ensures { result ≡ is_field kind k digits.now }
{
    match kind {
        Kind::Record => is_record_field(k, digits),
        Kind::Part => is_part_field(k, digits),
        Kind::Word | Kind::Joint => fits(digits, Base::Decimal, 255),
        Kind::State => is_state_field(k, digits),
        Kind::Row => is_row_field(k, digits),
        Kind::Ahead => is_dash_or(digits),
        Kind::Cell => is_cell_field(digits),
        Kind::Sets => fits(digits, Base::Decimal, 4096),
        Kind::Block => is_block(digits),
        Kind::Scalar => fits(digits, Base::Hexadecimal, u32::MAX),
    }
}

pub fn is_item(item: &[u8], kind: Kind) -> bool
    ensures { result ≡ is_item kind item.now }
{
    let last = commas(kind);
    if count(item, b',') != last {
        return false;
    }
    for k in 0..last + 1 {
        if !is_field(kind, k, span(item, b',', k)) {
            return false;
        }
    }
    true
}

// More than a line of 1 MiB has blocks.
const MOST_BLOCKS: usize = 524288;

// More than a line of 1 MiB has scalars of three digits; no lookup has cells for as many.
pub const MOST_SCALARS: usize = 262144;

// As many items as a text may have. What property files are asked has no such bound, but the line's.
fn most_items(kind: Kind) -> usize
    ensures value { result ≡ most_of kind }
    ensures upper_bound { result ≤ most_blocks }
{
    match kind {
        Kind::Block => MOST_BLOCKS,
        Kind::Scalar => MOST_SCALARS,
        _ => MOST,
    }
}

fn item_count(kind: Kind, blanks: usize) -> u32
    ensures { result ≡ item_count kind blanks }
{
    blanks.min(most_items(kind)) as u32 + 1
}

// The number of items, or none where one is not of the layout. Of any more than a text may have, one more is enough to be refused.
pub fn count_items(section: &[u8], kind: Kind) -> Option<u32>
    ensures { result ≡ items_of kind section.now }
{
    if section.is_empty() {
        return Some(0);
    }
    let last = count(section, b' ');
    let mut at: usize = 0;
    for _ in 0..last + 1 {
        if !is_item(span_at(section, at, b' '), kind) {
            return None;
        }
        at = next_of(section, at, b' ');
    }
    Some(item_count(kind, last))
}
