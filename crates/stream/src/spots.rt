// A place in the token stream of the complex parser by record and token, so that a token is read where its record or part stands.
ghost use Rattle.std.specs.Prelude.{◌≡◌, ◌<◌};
ghost use Rattle.records.specs.Text.{lent};
ghost use Rattle.stream.specs.Inner.{behind_of, Takes};

use crate::pieces::{piece, pieces_at};
use classes::Mode;
use records::Columns;

// Token `part` of those that a record gives.
#[derive(Clone, Copy)]
pub struct Spot {
    pub index: usize,
    pub part: usize,
}

// A token, and the spot behind it.
#[derive(Clone, Copy)]
pub struct Taken {
    pub token: u64,
    pub next: Spot,
}

impl Spot {
    pub const START: Spot = Spot { index: 0, part: 0 };
}

// The spot behind token k of a record that gives so many.
fn behind(i: usize, k: usize, pieces: usize) -> Spot
    requires { (i < 0xFFFFFFFFFFFFFFFF) × (k < 256) }
    ensures { result ≡ behind_of i k pieces }
{
    if k + 1 < pieces {
        return Spot {
            index: i,
            part: k + 1,
        };
    }
    Spot {
        index: i + 1,
        part: 0,
    }
}

// The first token from a spot on. Behind a record's last token the spot is the next record, whatever that gives. No range: the
// first record is begun at a part.
pub fn take(mode: Mode, khmer: bool, columns: &Columns, s: Spot) -> Taken
    ensures { Takes mode khmer (lent columns.now) s result }
{
    let n = columns.scalars.len();
    let mut i: usize = s.index;
    let mut k: usize = s.part;
    while i < n {
        let pieces = pieces_at(mode, khmer, columns, i);
        if k < pieces {
            let token = piece(mode, khmer, columns, i, k);
            let next = behind(i, k, pieces);
            return Taken { token, next };
        }
        i += 1;
        k = 0;
    }
    Taken {
        token: 0,
        next: Spot { index: i, part: k },
    }
}
