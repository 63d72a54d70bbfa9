// The lines in turn: each is judged, and its range is noted beside the columns, which do not change before all lines are judged.
ghost use Rattle.std.specs.Prelude.{◌≡◌, ◌||◌, ◌<◌, length};
ghost use Rattle.properties.specs.Inner.{judge_met, Lent, NotedBy, Collects};

use crate::meets::met_by;
use crate::rulings::ruling_of;
use crate::{File, Ruling};
use cases::{next_of, span_at};
use records::{Refusal, Side, refused};

// `before` is whether its range meets one held, `earlier` one of an earlier line.
fn judge_ruling(
    ruling: Ruling,
    before: bool,
    earlier: bool,
    full: bool,
    line: usize,
) -> Result<(), Refusal>
    ensures { result ≡ judge_met ruling (earlier || before) full line }
{
    match ruling {
        Ruling::Nothing => Ok(()),
        Ruling::Refused(number) => refused(number, Side::Neither, line),
        Ruling::Range { .. } if earlier || before => refused(13, Side::Neither, line),
        Ruling::Range { .. } if full => refused(14, Side::Neither, line),
        Ruling::Range { .. } => Ok(()),
    }
}

// The range of a line goes behind the n that are noted. Three columns here, in `collect` and in `read_lines`, not one struct: C lends each by
// itself, and the contract determines each, beyond the ranges too.
fn note(ruling: Ruling, firsts: &mut [u32], lasts: &mut [u32], codes: &mut [u8], n: usize) -> usize
    requires { (n < length firsts.old) × ((n < length lasts.old) × (n < length codes.old)) }
    ensures { NotedBy ruling firsts.old lasts.old codes.old n result firsts.new lasts.new codes.new }
{
    match ruling {
        Ruling::Nothing => n,
        Ruling::Refused(_) => n,
        Ruling::Range { first, last, code } => {
            firsts[n] = first;
            lasts[n] = last;
            codes[n] = code;
            n + 1
        }
    }
}

// How many ranges the lines hold. The lent ranges come first, then the columns for what the lines hold. No iterator over lines: `read_verdict`
// and the laws of blocks are about the place at which a line begins.
pub(crate) fn collect(
    file: File,
    bytes: &[u8],
    firsts: &[u32],
    lasts: &[u32],
    held: usize,
    free: usize,
    new_firsts: &mut [u32],
    new_lasts: &mut [u32],
    new_codes: &mut [u8],
) -> Result<usize, Refusal>
    requires { Lent bytes.now firsts.now lasts.now held new_firsts.old new_lasts.old new_codes.old }
    ensures { Collects file bytes.now firsts.now lasts.now held free result new_firsts.new new_lasts.new new_codes.new }
{
    let mut at: usize = 0;
    let mut k: usize = 0;
    let mut n: usize = 0;
    while at < bytes.len() {
        let ruling = ruling_of(file, span_at(bytes, at, b'\n'));
        let before = met_by(ruling, firsts, lasts, held);
        let earlier = met_by(ruling, new_firsts, new_lasts, n);
        judge_ruling(ruling, before, earlier, free <= n, k + 1)?;
        n = note(ruling, new_firsts, new_lasts, new_codes, n);
        at = next_of(bytes, at, b'\n');
        k += 1;
    }
    Ok(n)
}
