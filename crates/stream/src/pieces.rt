// The tokens of one record.
#![tactic(auto, unfolding(crate::specs::Stream::piece_count, crate::specs::Inner::gives_itself), using(crate::proofs::Piece::index_twice))]

ghost use Rattle.std.specs.Prelude.{◌≡◌, ◌&&◌, [], ◌<◌};
ghost use Rattle.basics.specs.Sets.{member};
ghost use Rattle.classes.specs.Scalar.{khmer_signs};
ghost use Rattle.records.specs.Text.{lent};
ghost use Rattle.stream.specs.Stream.{source_of, own_token, part_token, stands_alone, piece_count, gives_none};
ghost use Rattle.stream.specs.Inner.{pieces_in, itself_in, Piece};

use classes::Mode;
use records::cells::cell;
use records::{Columns, is_sign};

// Whether a scalar is one of the five signs that Khmer splits.
pub fn is_split_sign(khmer: bool, x: u32) -> bool
    ensures { result ≡ (khmer && member khmer_signs x) }
{
    khmer && is_sign(x)
}

// Whether a marked record of so many parts stands for itself: where the modes differ.
fn stands_alone(mode: Mode, count: u8) -> bool
    ensures { result ≡ stands_alone mode count }
{
    matches!(mode, Mode::Whole) && count == 0
}

// How many tokens a record gives to the complex parser, by its cells.
fn piece_count(mode: Mode, khmer: bool, decompose: u8, x: u32, count: u8) -> usize
    ensures { (result ≡ piece_count mode khmer decompose x count) × (result < 256) }
{
    if decompose == 1 {
        if stands_alone(mode, count) {
            1
        } else {
            count as usize
        }
    } else if is_split_sign(khmer, x) {
        2
    } else {
        1
    }
}

// The same by record i's place in the columns.
pub(crate) fn pieces_at(mode: Mode, khmer: bool, columns: &Columns, i: usize) -> usize
    ensures { (result ≡ pieces_in mode khmer (lent columns.now) i) × (result < 256) }
{
    piece_count(
        mode,
        khmer,
        cell(columns.decomposes, i, 0),
        cell(columns.scalars, i, 0),
        cell(columns.counts, i, 0),
    )
}

// Whether record i gives one token, itself.
pub(crate) fn gives_itself(mode: Mode, khmer: bool, columns: &Columns, i: usize) -> bool
    ensures { result ≡ itself_in mode khmer (lent columns.now) i }
{
    if cell(columns.decomposes, i, 0) == 1 {
        stands_alone(mode, cell(columns.counts, i, 0))
    } else {
        !is_split_sign(khmer, cell(columns.scalars, i, 0))
    }
}

// Whether a record gives no token, by its cells.
pub(crate) fn gives_none(mode: Mode, decompose: u8, count: u8) -> bool
    ensures { result ≡ gives_none mode decompose count }
{
    decompose == 1 && !stands_alone(mode, count) && count == 0
}

// Record i as a token, with the classes of this column and this emoji mark.
pub(crate) fn own_token(columns: &Columns, kinds: &[u8], emoji: u8, i: usize) -> u64
    ensures { result ≡ own_token (source_of (lent columns.now).records kinds.now []) emoji i }
{
    token::pack(
        cell(columns.scalars, i, 0),
        cell(kinds, i, 0),
        cell(columns.breaks, i, 0),
        cell(columns.categories, i, 0),
        emoji,
        cell(columns.selectors, i, 0),
        (i % 4096) as u16,
    )
}

// Part j as a token of record i.
fn part_token(columns: &Columns, j: usize, i: usize) -> u64
    ensures { result ≡ part_token (lent columns.now).parts j i }
{
    token::pack(
        cell(columns.pscalars, j, 0),
        cell(columns.puses, j, 0),
        cell(columns.pbreaks, j, 0),
        cell(columns.pcategories, j, 0),
        0,
        0,
        (i % 4096) as u16,
    )
}

// Token k of those that record i gives to the complex parser.
pub(crate) fn piece(mode: Mode, khmer: bool, columns: &Columns, i: usize, k: usize) -> u64
    requires { k < 256 }
    ensures { Piece mode khmer (lent columns.now) i k result }
{
    if gives_itself(mode, khmer, columns, i) {
        return own_token(columns, columns.uses, cell(columns.cemojis, i, 0), i);
    }
    let first = cell(columns.firsts, i, 0) as usize;
    if cell(columns.decomposes, i, 0) == 1 {
        return part_token(columns, first + k, i);
    }
    if k == 0 {
        return part_token(columns, first, i);
    }
    own_token(columns, columns.uses, 0, i)
}
