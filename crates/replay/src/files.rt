// A line of property files: its blocks are read into two sets of ranges, one after another, then its scalars looked up in both.
ghost use Rattle.std.specs.Prelude.{◌≤◌};

use crate::out::Out;
use crate::refusals::{line_refusal, refusal};
use crate::zeros::{CELLS, COLUMN, RANGES, cells, ranges};
use cases::{MOST_SCALARS, column32, letter, span};
use properties::{File, lookup, read};
use records::Refusal;
use records::cells::first;

// One more than are counted.
const SCALARS: usize = MOST_SCALARS + 1;

// One byte more than a block may have, so that a longer one is seen.
const BLOCK: usize = 65537;

// How much a line asks for: cells of the two sets, blocks to read, scalars to look up, cells to look them up into.
#[derive(Clone, Copy)]
pub(crate) struct Sizes {
    pub clusters: usize,
    pub words: usize,
    pub blocks: usize,
    pub scalars: usize,
    pub cells: usize,
}

// A set of ranges: how many cells are lent to it, and how many of them it holds.
#[derive(Drop)]
struct Ranges {
    file: File,
    firsts: [u32; RANGES],
    lasts: [u32; RANGES],
    codes: [u8; RANGES],
    cells: usize,
    held: usize,
}

impl Ranges {
    fn new(file: File, cells: usize) -> Ranges {
        Ranges {
            file,
            firsts: ranges(0),
            lasts: ranges(0),
            codes: ranges(0),
            cells,
            held: 0,
        }
    }

    // Reads the block of an item, after those that were read before.
    fn read(&mut self, item: &[u8]) -> Result<(), Refusal> {
        let mut bytes = [0; BLOCK];
        let n = cases::bytes(span(item, b':', 1), &mut bytes);
        let Ranges {
            file,
            firsts,
            lasts,
            codes,
            cells,
            held,
        } = self;
        let room = (*cells).min(RANGES);
        let firsts: &mut [u32] = firsts;
        let lasts: &mut [u32] = lasts;
        let codes: &mut [u8] = codes;
        let filled = read(
            *file,
            &bytes[..n],
            &mut firsts[..room],
            &mut lasts[..room],
            &mut codes[..room],
            *held,
        );
        *held = filled.held;
        filled.verdict
    }

    // "FIRST-LAST.CODE", commas between, and "|"
    fn print(&self, out: &mut Out) {
        let bounds = self.firsts.iter().zip(&self.lasts);
        for (i, ((&a, &b), &code)) in bounds.zip(&self.codes).take(self.held).enumerate() {
            if 0 < i {
                out.put(b',');
            }
            out.hex(a);
            out.put(b'-');
            out.hex(b);
            out.put(b'.');
            out.decimal(u64::from(code));
        }
        out.put(b'|');
    }
}

// "ok|", or the refusal
fn judged(out: &mut Out, verdict: Result<(), Refusal>) {
    match verdict {
        Ok(()) => out.text(b"ok"),
        Err(r) => line_refusal(out, r),
    }
    out.put(b'|');
}

// "break,word", blanks between
fn looked_up(out: &mut Out, breaks: &[u8], words: &[u8]) {
    for (i, (&b, &w)) in breaks.iter().zip(words).enumerate() {
        if 0 < i {
            out.put(b' ');
        }
        out.decimals(&[b, w], b',');
    }
}

// The scalars have a column of N cells: few have a short one, since to clear the long one takes longer than all else.
fn look_up<const N: usize>(
    out: &mut Out,
    section: &[u8],
    sizes: Sizes,
    clusters: &Ranges,
    words: &Ranges,
)
    requires { N ≤ 262145 }
{
    let mut scalars = [0; N];
    let mut breaks = cells(0);
    let mut classes = cells(0);
    let n = column32(section, 0, sizes.scalars, &mut scalars);
    let k = sizes.cells.min(CELLS);
    let verdict = lookup(
        &scalars[..n],
        first(&clusters.firsts, clusters.cells),
        first(&clusters.lasts, clusters.cells),
        first(&clusters.codes, clusters.cells),
        clusters.held,
        first(&words.firsts, words.cells),
        first(&words.lasts, words.cells),
        first(&words.codes, words.cells),
        words.held,
        &mut breaks[..k],
        &mut classes[..k],
    );
    match verdict {
        Ok(()) => looked_up(out, first(&breaks, n), first(&classes, n)),
        Err(r) => refusal(out, r),
    }
}

// "verdict|verdict|…|ranges|ranges|lookup"
pub(crate) fn files(out: &mut Out, line: &[u8], sizes: Sizes) {
    let mut clusters = Ranges::new(File::Cluster, sizes.clusters);
    let mut words = Ranges::new(File::Word, sizes.words);
    let blocks = span(line, b';', 2).split(|&b| b == b' ');
    for item in blocks.take(sizes.blocks) {
        let verdict = if letter(span(item, b':', 0)) == b'G' {
            clusters.read(item)
        } else {
            words.read(item)
        };
        judged(out, verdict);
    }
    clusters.print(out);
    words.print(out);
    let section = span(line, b';', 4);
    if COLUMN < sizes.scalars {
        look_up::<SCALARS>(out, section, sizes, &clusters, &words);
    } else {
        look_up::<COLUMN>(out, section, sizes, &clusters, &words);
    }
}
