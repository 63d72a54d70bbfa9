// What the class table says of the characters.
ghost use Rattle.std.specs.Prelude.{◌≡◌, min, length, take};
ghost use Rattle.basics.specs.Columns.{cells};
ghost use Rattle.label.specs.Lines.{class_in, field_of, said};
ghost use Rattle.label.specs.Said.{said_at};
ghost use Rattle.label.specs.Table as Table;

use crate::{COLUMN, table};
use records::cells::cell;

// A column of the table.
#[derive(Clone, Copy)]
pub enum Field {
    Break,
    Myanmar,
    Category,
    Emoji,
    Selector,
}

// A code of no list: the library refuses it, so that no character gets a class by default.
const UNKNOWN: u8 = 255;

#[tactic(auto, using(crate::proofs::Columns::left_all, crate::proofs::Columns::found_none, crate::proofs::Columns::found_low, crate::proofs::Columns::found_high))]
fn class_in(firsts: &[u32], lasts: &[u32], classes: &[u8], x: u32) -> u8
    ensures { result ≡ class_in firsts.now lasts.now classes.now x }
{
    for i in 0..firsts.len() {
        if firsts[i] <= x && x <= cell(lasts, i, 0) {
            return cell(classes, i, 0);
        }
    }
    UNKNOWN
}

// What the table says of a scalar.
pub(crate) fn class_of(field: Field, x: u32) -> u8
    ensures { result ≡ said (field_of field) Table.table x }
{
    let classes = match field {
        Field::Break => &table::BREAKS,
        Field::Myanmar => &table::MYANMARS,
        Field::Category => &table::CATEGORIES,
        Field::Emoji => &table::EMOJIS,
        Field::Selector => &table::SELECTORS,
    };
    class_in(&table::FIRSTS, &table::LASTS, classes, x)
}

// What the table says of each scalar, as far as the column goes.
#[tactic(auto, unfolding(basics::specs::Columns::cells))]
pub(crate) fn classed(field: Field, scalars: &[u32]) -> [u8; COLUMN]
    ensures value { 4097 ≡ length result }
    ensures result_value { take (min (length scalars.now) 4097) result ≡ cells (said_at field scalars.now) (min (length scalars.now) 4097) }
{
    let mut column = [0; COLUMN];
    for i in 0..scalars.len().min(COLUMN) {
        column[i] = class_of(field, scalars[i]);
    }
    column
}
