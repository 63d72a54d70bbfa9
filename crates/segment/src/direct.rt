// The ways to the cells of a text whose records are its tokens: each token is read from the lent columns, none is kept, no array filled.
#![tactic(auto, unfolding(crate::specs::Seen::kinzi_in, crate::specs::Seen::ends_in, crate::specs::Seen::myanmar_seen, crate::specs::Seen::myanmar_index, tables::specs::Symbols::myanmar_in, tables::specs::Symbols::use_index), using(crate::proofs::Reading::seen_ways))]

ghost use Rattle.std.specs.Prelude.{◌≡◌, List, length, ◌<◌, ◌≤◌};
ghost use Rattle.records.specs.Text.{lent};
ghost use Rattle.records.specs.declared.Parser.TheVariants.{Simple, Myanmar};
ghost use Rattle.parse.specs.State.{token_at};
ghost use Rattle.tables.specs.Symbols.{use_index, table_of};
ghost use Rattle.segment.specs.Going.{newline_at, crowded_at};
ghost use Rattle.segment.specs.Seen.{seen_of, EvenSeen, Shown, use_parser, kinzi_in, ends_in, myanmar_seen, myanmar_index};
ghost use Rattle.segment.specs.Standing.{Ready, ReachedIn};

use crate::going::{Going, Look, OVER, Stand, cell_at};
use crate::way::{Way, by_table};
use classes::{Mode, cluster_break, myanmar_class, scalar};
use myanmar::begins_kinzi;
use records::cells::cell;
use records::{Columns, Parser};
use tables::complex_table::COMPLEX;
use tables::khmer_table::KHMER;
use tables::myanmar_table::MYANMAR;
use tables::simple_table::SIMPLE;
use tables::{emoji_symbol, myanmar_other, simple_symbol, use_symbol};

// The records as one parser sees them: its own classes and emoji marks.
#[derive(Clone, Copy)]
pub(crate) struct Seen<'a> {
    pub scalars: &'a [u32],
    pub kinds: &'a [u8],
    pub breaks: &'a [u8],
    pub categories: &'a [u8],
    pub emojis: &'a [u8],
    pub selectors: &'a [u8],
}

// The row of the simple table behind prepended characters.
const PREPENDED: usize = 6;

impl<'a> Seen<'a> {
    pub(crate) fn of(columns: &Columns<'a>, kinds: &'a [u8], emojis: &'a [u8]) -> Seen<'a>
        ensures { Shown (lent columns.now) kinds.now emojis.now result }
    {
        Seen {
            scalars: columns.scalars,
            kinds,
            breaks: columns.breaks,
            categories: columns.categories,
            emojis,
            selectors: columns.selectors,
        }
    }

    // Record i as a token. It is packed in a register and taken apart at once: the compiler leaves of both what is asked for.
    pub(crate) fn token_at(&self, i: usize) -> u64
        requires { EvenSeen self.now × (i < length self.now.scalars.now) }
        ensures { result ≡ token_at (seen_of self.now) i }
    {
        token::pack(
            self.scalars[i],
            self.kinds[i],
            self.breaks[i],
            self.categories[i],
            self.emojis[i],
            self.selectors[i],
            (i % 4096) as u16,
        )
    }

    // Whether record i is a CR without the emoji mark, and an LF behind it.
    fn is_newline(&self, i: usize) -> bool
        requires { EvenSeen self.now × (i < length self.now.scalars.now) }
        ensures { result ≡ newline_at (seen_of self.now) i }
    {
        let t = self.token_at(i);
        if token::kind(t) != cluster_break::CR
            || token::emoji(t) == 1
            || self.scalars.len() <= i + 1
        {
            return false;
        }
        token::kind(self.token_at(i + 1)) == cluster_break::LF
    }

    // Whether the cluster under way ends before the record at its place: prepended characters, and no room for both CR and LF (SCOPE 6.9).
    fn is_crowded(&self, mode: Mode, g: Going) -> bool
        requires { EvenSeen self.now × (g.at < length self.now.scalars.now) × (g.characters ≤ 65535) }
        ensures { result ≡ crowded_at mode (seen_of self.now) g.row g.at g.characters g.stop }
    {
        g.row == PREPENDED && g.has_last_cell(mode) && self.is_newline(g.at)
    }
}

#[derive(Clone, Copy)]
struct BySimple<'a> {
    seen: Seen<'a>,
}

impl Way for BySimple<'_> {
    ghost parser = { λ w. Simple };

    ghost tokens = { λ w. seen_of w.seen };

    ghost ready = { λ w. EvenSeen w.seen };

    fn count(&self) -> usize {
        self.seen.scalars.len()
    }

    fn look(&self, mode: Mode, g: Going) -> Look {
        if self.seen.is_crowded(mode, g) {
            return Look {
                cell: OVER,
                scalar: token::scalar(self.seen.token_at(g.at)),
            };
        }
        let t = self.seen.token_at(g.at);
        let scalar = token::scalar(t);
        let index = simple_symbol(t) * 9 + g.row;
        let cell = cell_at(false, &SIMPLE, scalar, index, g.row);
        Look { cell, scalar }
    }
}

fn kinzi_at(scalars: &[u32], i: usize) -> bool
    requires { i < length scalars.now }
    ensures { result ≡ kinzi_in scalars.now i }
{
    begins_kinzi(scalars[i])
        && cell(scalars, i + 1, 0) == scalar::ASAT
        && cell(scalars, i + 2, 0) == scalar::VIRAMA
}

// Whether behind a kinzi the text ends or U+034F stands: in crate mode repeat (b) can follow, which the calls make.
fn ends_at(mode: Mode, scalars: &[u32], i: usize) -> bool
    requires { i < length scalars.now }
    ensures { result ≡ ends_in mode scalars.now i }
{
    matches!(mode, Mode::Crate) && (scalars.len() <= i + 3 || scalars[i + 3] == scalar::CGJ)
}

fn myanmar_symbol(mode: Mode, scalars: &[u32], t: u64, i: usize) -> usize
    requires { i < length scalars.now }
    ensures { (result ≡ myanmar_seen mode scalars.now t i) × (result < 64) }
{
    if token::emoji(t) == 1 {
        return 26;
    }
    let kind = token::kind(t);
    if kind == myanmar_class::O {
        return myanmar_other(t);
    }
    if kinzi_at(scalars, i) {
        if ends_at(mode, scalars, i) { 33 } else { 32 }
    } else {
        kind as usize
    }
}

// The index of the cell: the last row, behind an emoji, has symbols of its own.
fn myanmar_index(mode: Mode, scalars: &[u32], t: u64, i: usize, row: usize) -> usize
    requires { (i < length scalars.now) × (row < 64) }
    ensures { result ≡ myanmar_index mode scalars.now t i row }
{
    if row < 34 {
        myanmar_symbol(mode, scalars, t, i) * 34 + row
    } else {
        1156 + emoji_symbol(t)
    }
}

#[derive(Clone, Copy)]
struct ByMyanmar<'a> {
    seen: Seen<'a>,
}

impl Way for ByMyanmar<'_> {
    ghost parser = { λ w. Myanmar };

    ghost tokens = { λ w. seen_of w.seen };

    ghost ready = { λ w. EvenSeen w.seen };

    fn count(&self) -> usize {
        self.seen.scalars.len()
    }

    fn look(&self, mode: Mode, g: Going) -> Look {
        let t = self.seen.token_at(g.at);
        let scalar = token::scalar(t);
        let index = myanmar_index(mode, self.seen.scalars, t, g.at, g.row);
        let cell = cell_at(true, &MYANMAR, scalar, index, g.row);
        Look { cell, scalar }
    }
}

pub(crate) fn use_index(khmer: bool, t: u64, row: usize) -> usize
    requires { row < 64 }
    ensures { result ≡ use_index khmer t row }
{
    if row < 34 {
        use_symbol(khmer, t) * 34 + row
    } else {
        1496 + emoji_symbol(t)
    }
}

// The table of the complex parser, with and without Khmer.
pub(crate) fn use_table(khmer: bool) -> &'static [u16]
    ensures { result.now ≡ table_of (use_parser khmer) }
{
    if khmer { &KHMER } else { &COMPLEX }
}

#[derive(Clone, Copy)]
struct ByUse<'a, const KHMER: bool> {
    seen: Seen<'a>,
}

impl<const KHMER: bool> Way for ByUse<'_, KHMER> {
    ghost parser = { λ w. use_parser KHMER };

    ghost tokens = { λ w. seen_of w.seen };

    ghost ready = { λ w. EvenSeen w.seen };

    fn count(&self) -> usize {
        self.seen.scalars.len()
    }

    fn look(&self, mode: Mode, g: Going) -> Look {
        let t = self.seen.token_at(g.at);
        let scalar = token::scalar(t);
        let index = use_index(KHMER, t, g.row);
        let cell = cell_at(true, use_table(KHMER), scalar, index, g.row);
        Look { cell, scalar }
    }
}

// A run over a text whose records are the tokens, as far as the table goes. Each arm names another instance of the loop, which only a
// `match` can choose; so it is in `tabled`, `parted`, `call`, `count_of` and `tokens_of`.
pub(crate) fn direct(
    parser: Parser,
    mode: Mode,
    columns: &Columns,
    oscalars: &mut [u32],
    oclasses: &mut [u8],
    oclusters: &mut [u16],
) -> Stand
    requires { Ready parser (lent columns.now) oscalars.old oclasses.old oclusters.old }
    ensures { ReachedIn parser mode (lent columns.now) oscalars oclasses oclusters result }
{
    match parser {
        Parser::Simple => {
            let seen = Seen::of(columns, columns.breaks, columns.semojis);
            by_table(&BySimple { seen }, mode, oscalars, oclasses, oclusters)
        }
        Parser::Myanmar => {
            let seen = Seen::of(columns, columns.myanmars, columns.memojis);
            by_table(&ByMyanmar { seen }, mode, oscalars, oclasses, oclusters)
        }
        Parser::Complex => {
            let seen = Seen::of(columns, columns.uses, columns.cemojis);
            let way = ByUse::<false> { seen };
            by_table(&way, mode, oscalars, oclasses, oclusters)
        }
        Parser::Khmer => {
            let seen = Seen::of(columns, columns.uses, columns.cemojis);
            let way = ByUse::<true> { seen };
            by_table(&way, mode, oscalars, oclasses, oclusters)
        }
    }
}
