// The way to the cells of an array of tokens: the complex parser, where a record or a part is odd that gives no token.
ghost use Rattle.segment.specs.Inner.{Roomy};
ghost use Rattle.segment.specs.Seen.{use_parser};
ghost use Rattle.segment.specs.Standing.{Reached, Stands, Onward};

use crate::direct::{use_index, use_table};
use crate::going::{Going, Look, Stand, cell_at};
use crate::regular::all_regular;
use crate::way::{Way, by_table};
use classes::Mode;
use records::Parser;

#[derive(Clone, Copy)]
struct ByTokens<'a, const KHMER: bool> {
    text: &'a [u64],
}

impl<const KHMER: bool> Way for ByTokens<'_, KHMER> {
    ghost parser = { λ w. use_parser KHMER };

    ghost tokens = { λ w. w.text.now };

    ghost ready = { λ w. Unit {0} };

    fn count(&self) -> usize {
        self.text.len()
    }

    fn look(&self, mode: Mode, g: Going) -> Look {
        let t = self.text[g.at];
        let scalar = token::scalar(t);
        let index = use_index(KHMER, t, g.row);
        let cell = cell_at(true, use_table(KHMER), scalar, index, g.row);
        Look { cell, scalar }
    }
}

// A text that is not regular is left to the calls whole.
fn by_tokens<const KHMER: bool>(
    mode: Mode,
    text: &[u64],
    oscalars: &mut [u32],
    oclasses: &mut [u8],
    oclusters: &mut [u16],
) -> Stand
    requires { Roomy text.now oscalars.old oclasses.old oclusters.old }
    ensures { Reached (use_parser KHMER) mode text.now oscalars oclasses oclusters result }
{
    if all_regular(KHMER, text) {
        let way = ByTokens::<KHMER> { text };
        return by_table(&way, mode, oscalars, oclasses, oclusters);
    }
    Stand::START
}

// A run on from a stand: from the start, the tokens of the complex parser go by the table. A table that has given a cluster up, as
// Myanmar's does, is not asked again.
pub(crate) fn tabled(
    parser: Parser,
    mode: Mode,
    text: &[u64],
    from: Stand,
    oscalars: &mut [u32],
    oclasses: &mut [u8],
    oclusters: &mut [u16],
) -> Stand
    requires { Stands parser mode text.now oscalars oclasses oclusters from }
    ensures { Onward parser mode text.now from oscalars oclasses oclusters result }
{
    if 0 < from.at {
        return from;
    }
    match parser {
        Parser::Simple | Parser::Myanmar => from,
        Parser::Complex => by_tokens::<false>(mode, text, oscalars, oclasses, oclusters),
        Parser::Khmer => by_tokens::<true>(mode, text, oscalars, oclasses, oclusters),
    }
}
