// The reader: range columns from the lines of a property file.
ghost use Rattle.std.specs.Prelude.{◌≡◌, ◌≤◌, length};
ghost use Rattle.properties.specs.Ranges.{ranges};
ghost use Rattle.properties.specs.Reading.{cells_of, HasRead};
ghost use Rattle.properties.specs.Inner.{Readable};

use crate::merging::fill;
use crate::ranges::Rows;
use crate::verdicts::collect;
use crate::{File, Filled};
use records::{Side, refused};

// "64 KiB at most at a time"
const MOST: usize = 65536;

// Beside the columns, for the ranges of one call: a line that holds a range has four bytes with its LF, and the last may lack that.
const NEW: usize = 16384;

#[tactic(auto, unfolding(crate::specs::Reading::cells_of))]
fn cells_of(firsts: usize, lasts: usize, codes: usize) -> usize
    ensures { result ≡ cells_of firsts lasts codes }
{
    firsts.min(lasts.min(codes))
}

// The lines are judged before anything is written.
fn read_lines(
    file: File,
    bytes: &[u8],
    firsts: &mut [u32],
    lasts: &mut [u32],
    codes: &mut [u8],
    held: usize,
    free: usize,
) -> Filled
    requires { Readable bytes.now firsts.old lasts.old codes.old held free }
    ensures { HasRead file (ranges firsts.old lasts.old codes.old held) bytes.now result firsts.new lasts.new codes.new }
{
    let mut nfirsts = [0u32; NEW];
    let mut nlasts = [0u32; NEW];
    let mut ncodes = [0u8; NEW];
    let collected = collect(
        file,
        bytes,
        firsts,
        lasts,
        held,
        free,
        &mut nfirsts,
        &mut nlasts,
        &mut ncodes,
    );
    let n = match collected {
        Ok(n) => n,
        Err(refusal) => {
            return Filled {
                verdict: Err(refusal),
                held,
            };
        }
    };
    let new = Rows {
        firsts: &nfirsts,
        lasts: &nlasts,
        codes: &ncodes,
    };
    fill(firsts, lasts, codes, held, &new, n);
    Filled {
        verdict: Ok(()),
        held: held + n,
    }
}

// The ranges of the lent bytes, put into the columns in scalar order. The index of a refusal is the number of its line, from 1 in the
// bytes lent, and 0 where it is of no line; with a refusal nothing changes.
pub fn read(
    file: File,
    bytes: &[u8],
    firsts: &mut [u32],
    lasts: &mut [u32],
    codes: &mut [u8],
    held: usize,
) -> Filled
    ensures { HasRead file (ranges firsts.old lasts.old codes.old held) bytes.now result firsts.new lasts.new codes.new }
{
    if MOST < bytes.len() {
        return Filled {
            verdict: refused(1, Side::Neither, 0),
            held,
        };
    }
    let cells = cells_of(firsts.len(), lasts.len(), codes.len());
    if cells < held {
        return Filled {
            verdict: refused(14, Side::Neither, 0),
            held,
        };
    }
    read_lines(file, bytes, firsts, lasts, codes, held, cells - held)
}
