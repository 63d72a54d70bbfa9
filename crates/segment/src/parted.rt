// The loop over a table on the columns of the complex parser, where records are split: each token is read where its record or part
// stands, and no array is filled.
#![tactic(auto, unfolding(crate::specs::Parted::is_whole, crate::specs::Parted::spot_after))]

ghost use Rattle.std.specs.Prelude.{◌≡◌, length, ◌<◌};
ghost use Rattle.records.specs.Text.{cell, lent};
ghost use Rattle.stream.specs.Stream.{stream_of, split_tokens};
ghost use Rattle.segment.specs.Seen.{seen_of, use_parser, EvenSeen};
ghost use Rattle.segment.specs.Parted.{is_whole, ReadBy, kept_in, spot_after, Apart, Parting};
ghost use Rattle.segment.specs.Standing.{Reached};

use crate::direct::{Seen, use_index, use_table};
use crate::going::{Going, Stand, cell_at, gives_up};
use classes::Mode;
use records::{Columns, Parser};
use stream::is_split_sign;
use stream::spots::{Spot, Taken, take};

// Whether a record is its token, which is the next one.
fn is_whole(khmer: bool, part: usize, x: u32, decompose: u8) -> bool
    ensures { result ≡ is_whole khmer part x decompose }
{
    decompose != 1 && !is_split_sign(khmer, x) && part == 0
}

// The token at a spot. Most records are their token, which is read from the columns as `direct` reads it.
fn taken_at(khmer: bool, mode: Mode, columns: &Columns, seen: &Seen, s: Spot) -> Taken
    requires { EvenSeen seen.now × ((length columns.now.decomposes.now ≡ length seen.now.scalars.now) × (s.index < length seen.now.scalars.now)) }
    ensures { ReadBy (is_whole khmer s.part (cell seen.now.scalars.now s.index) (cell columns.now.decomposes.now s.index)) mode khmer (lent columns.now) (seen_of seen.now) s result }
{
    let i = s.index;
    if is_whole(khmer, s.part, seen.scalars[i], columns.decomposes[i]) {
        let token = seen.token_at(i);
        let next = Spot {
            index: i + 1,
            part: 0,
        };
        return Taken { token, next };
    }
    take(mode, khmer, columns, s)
}

// Behind a full cluster: in crate mode its last token stays current (SCOPE 6.7).
fn kept(mode: Mode, s: Spot, next: Spot) -> Spot
    ensures { result ≡ kept_in mode s next }
{
    match mode {
        Mode::Crate => s,
        Mode::Whole => next,
    }
}

fn spot_after(mode: Mode, v: u16, g: Going, s: Spot, next: Spot) -> Spot
    ensures { result ≡ spot_after mode v g s next }
{
    if v / 16 % 4 == 3 {
        return s;
    }
    if g.is_full() {
        return kept(mode, s, next);
    }
    next
}

// A loop of its own and no `Way`: it moves a spot on beside its place, and `by_table` asks a way that does not change.
fn by_parts(
    khmer: bool,
    mode: Mode,
    tokens: usize,
    columns: &Columns,
    oscalars: &mut [u32],
    oclasses: &mut [u8],
    oclusters: &mut [u16],
) -> Stand
    requires { Apart khmer mode (lent columns.now) tokens oscalars.old oclasses.old oclusters.old }
    ensures { Reached (use_parser khmer) mode (split_tokens mode khmer (lent columns.now)) oscalars oclasses oclusters result }
{
    let seen = Seen::of(columns, columns.uses, columns.cemojis);
    let table = use_table(khmer);
    let mut g = Going::START;
    let mut s = Spot::START;
    while g.goes_on(tokens) {
        if g.is_full() {
            g = g.refill(mode);
        } else {
            let row = g.row;
            let taken = taken_at(khmer, mode, columns, &seen, s);
            let t = taken.token;
            let x = token::scalar(t);
            let v = cell_at(true, table, x, use_index(khmer, t, row), row);
            if gives_up(v, row) {
                return g.stand();
            }
            g = g.turn(v, x, oscalars, oclasses, oclusters);
            s = spot_after(mode, v, g, s, taken.next);
        }
    }
    g.stand()
}

// A run over a text of so many tokens, all regular, as far as the table goes: of simple and Myanmar the records are the tokens.
pub(crate) fn parted(
    parser: Parser,
    mode: Mode,
    tokens: usize,
    columns: &Columns,
    oscalars: &mut [u32],
    oclasses: &mut [u8],
    oclusters: &mut [u16],
) -> Stand
    requires { Parting parser mode (lent columns.now) tokens oscalars.old oclasses.old oclusters.old }
    ensures { Reached parser mode (stream_of mode parser (lent columns.now)) oscalars oclasses oclusters result }
{
    match parser {
        Parser::Simple | Parser::Myanmar => Stand::START,
        Parser::Complex => { by_parts(false, mode, tokens, columns, oscalars, oclasses, oclusters) }
        Parser::Khmer => by_parts(true, mode, tokens, columns, oscalars, oclasses, oclusters),
    }
}
