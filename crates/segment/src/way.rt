// The loop over a table. It is one for all parsers: each has its own way to the cell of a token, and the compiler makes a loop of each.
ghost use Rattle.std.specs.Prelude.{◌≡◌, ℕ, List, length};
ghost use Rattle.records.specs.declared.Parser.{Parser};
ghost use Rattle.tables.specs.Symbols.{Regular};
ghost use Rattle.segment.specs.Inner.{Roomy};
ghost use Rattle.segment.specs.Ways.{Facing, Sees};
ghost use Rattle.segment.specs.Standing.{Reached};

use crate::going::{Going, Look, Stand, gives_up};
use classes::Mode;

// A way to the cells: whose they are, what tokens they stand for, and what it asks.
pub(crate) trait Way {
    ghost parser: { Self → Parser };

    ghost tokens: { Self → List ℕ };

    ghost ready: { Self → Type 0 };

    // How many tokens there are.
    fn count(&self) -> usize
        requires { ready self.now }
        ensures { result ≡ length (tokens self.now) };

    // The cell of the token that a run is at, and the token's scalar.
    fn look(&self, mode: Mode, g: Going) -> Look
        requires { ready self.now × Facing (parser self.now) (tokens self.now) g }
        ensures { Sees (parser self.now) mode (tokens self.now) g result };
}

// A run from the start, as far as the table goes.
pub(crate) fn by_table<W: Way>(
    way: &W,
    mode: Mode,
    oscalars: &mut [u32],
    oclasses: &mut [u8],
    oclusters: &mut [u16],
) -> Stand
    requires { W.ready way.now × (Regular (W.parser way.now) (W.tokens way.now) × Roomy (W.tokens way.now) oscalars.old oclasses.old oclusters.old) }
    ensures { Reached (W.parser way.now) mode (W.tokens way.now) oscalars oclasses oclusters result }
{
    let n = way.count();
    let mut g = Going::START;
    while g.goes_on(n) {
        if g.is_full() {
            g = g.refill(mode);
        } else {
            let look = way.look(mode, g);
            if gives_up(look.cell, g.row) {
                return g.stand();
            }
            g = g.turn(look.cell, look.scalar, oscalars, oclasses, oclusters);
        }
    }
    g.stand()
}
