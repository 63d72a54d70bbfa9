// The line of property files: blocks that fill two sets of ranges, and scalars to look up.
#![tactic(auto, unfolding(crate::specs::Lines::files_in, crate::specs::Lines::files_line))]

ghost use Rattle.std.specs.Prelude.{◌≡◌};
ghost use Rattle.cases.specs.Lines.{files_line};

use crate::columns::field16;
use crate::items::{Kind, count_items, is_item};
use crate::layout::Line;
use crate::numbers::{Base, MOST16, read_number};
use crate::spans::{count, span};

pub(crate) fn files_line(line: &[u8]) -> Option<Line>
    ensures { result ≡ files_line line.now }
{
    let sets = span(line, b';', 1);
    if count(line, b';') != 4 || !is_item(sets, Kind::Sets) {
        return None;
    }
    Some(Line::Files {
        clusters: field16(sets, 0),
        words: field16(sets, 1),
        blocks: count_items(span(line, b';', 2), Kind::Block)?,
        cells: read_number(span(line, b';', 3), Base::Decimal, MOST16)?,
        scalars: count_items(span(line, b';', 4), Kind::Scalar)?,
    })
}
