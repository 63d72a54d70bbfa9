// The check by columns: whether nothing but a sign can be refused. A text that fails here is judged record by record.
ghost use Rattle.std.specs.Prelude.{◌≡◌, true, false, ◌+◌, ◌<◌, ◌≤◌, leb, Ok};
ghost use Rattle.records.specs.Text.{lent};
ghost use Rattle.records.specs.Refusals.{marked_verdict};
ghost use Rattle.records.specs.Sweep.{CleanScalar, CleanScalars, Spared, zeros, Inside, SixBelow, Below, EndsBy, Passes, PassesFor};

use crate::cells::cell;
use crate::judge::{bad_scalar, is_barred};
use crate::{Columns, MOST, Parser};
use classes::{category, cluster_break, myanmar_class, scalar, use_class, word_break};

// Six codes, or what six codes stay below.
#[derive(Clone, Copy)]
pub struct Six {
    pub a: u8,
    pub b: u8,
    pub c: u8,
    pub d: u8,
    pub e: u8,
    pub f: u8,
}

// What the columns of classes stay below, and the counts of parts.
const CLASSES: Six = Six {
    a: cluster_break::LEN,
    b: use_class::LEN,
    c: myanmar_class::LEN,
    d: category::LEN,
    e: word_break::LEN,
    f: 4,
};

// The marks.
const MARKS: Six = Six {
    a: 2,
    b: 2,
    c: 2,
    d: 2,
    e: 2,
    f: 2,
};

// The parts' three columns, each of them twice.
const PARTS: Six = Six {
    a: cluster_break::LEN,
    b: use_class::LEN,
    c: category::LEN,
    d: cluster_break::LEN,
    e: use_class::LEN,
    f: category::LEN,
};

// Whether no run of parts ends past this.
fn ends_by(firsts: &[u16], counts: &[u8], parts: usize) -> bool
    ensures { result ≡ true → EndsBy firsts.now counts.now parts }
{
    if firsts.len() != counts.len() {
        return false;
    }
    let mut most: u32 = 0;
    for i in 0..firsts.len() {
        most = most.max(firsts[i] as u32 + counts[i] as u32);
    }
    most as usize <= parts
}

// Whether one of five lengths is not n.
fn differs(n: usize, b: usize, c: usize, d: usize, e: usize, f: usize) -> bool
    ensures { result ≡ false → (b ≡ n) × (c ≡ n) × (d ≡ n) × (e ≡ n) × (f ≡ n) }
{
    b != n || c != n || d != n || e != n || f != n
}

// 0 for a clean scalar, else 1: one that is refused, or U+034F, which some classes bar. (A number, so that the loop below has no branch.)
fn oddness(x: u32) -> u32
    ensures { result ≡ 0 → CleanScalar x }
{
    u32::from(bad_scalar(x) || x == scalar::CGJ)
}

fn clean_scalars(column: &[u32]) -> bool
    ensures { result ≡ true → CleanScalars column.now }
{
    let mut odd: u32 = 0;
    for &x in column {
        odd |= oddness(x);
    }
    odd == 0
}

// Whether no scalar is refused, or barred with its class.
fn are_spared(parser: Parser, scalars: &[u32], uses: &[u8]) -> bool
    ensures { result ≡ true → Spared parser scalars.now uses.now }
{
    for i in 0..scalars.len() {
        let x = scalars[i];
        if bad_scalar(x) || is_barred(parser, x, cell(uses, i, 0)) {
            return false;
        }
    }
    true
}

// 0 for a code below its limit, else 1.
fn outside(code: u8, limit: u8) -> u8
    ensures { result ≡ 0 → code < limit }
{
    u8::from(limit <= code)
}

// What is odd so far, and a code more.
fn also(odd: u8, code: u8, limit: u8) -> u8
    ensures { result ≡ 0 → (odd ≡ 0) × (code < limit) }
{
    odd | outside(code, limit)
}

fn also_six(odd: u8, codes: Six, limits: Six) -> u8
    ensures { result ≡ 0 → (odd ≡ 0) × Inside codes limits }
{
    let a = also(odd, codes.a, limits.a);
    let b = also(a, codes.b, limits.b);
    let c = also(b, codes.c, limits.c);
    let d = also(c, codes.d, limits.d);
    let e = also(d, codes.e, limits.e);
    also(e, codes.f, limits.f)
}

// Whether six columns stay below their limits: one loop for all of them, since at a label it is the beginning and the end of a loop that
// cost.
fn six_below(limits: Six, a: &[u8], b: &[u8], c: &[u8], d: &[u8], e: &[u8], f: &[u8]) -> bool
    requires { Inside zeros limits }
    ensures { result ≡ true → SixBelow limits a.now b.now c.now d.now e.now f.now }
{
    let n = a.len();
    if differs(n, b.len(), c.len(), d.len(), e.len(), f.len()) {
        return false;
    }
    let mut odd: u8 = 0;
    for i in 0..n {
        let codes = Six {
            a: a[i],
            b: b[i],
            c: c[i],
            d: d[i],
            e: e[i],
            f: f[i],
        };
        odd = also_six(odd, codes, limits);
    }
    odd == 0
}

fn below(c: &Columns) -> bool
    ensures { result ≡ true → Below (lent c.now) }
{
    six_below(
        CLASSES,
        c.breaks,
        c.uses,
        c.myanmars,
        c.categories,
        c.words,
        c.counts,
    ) && six_below(
        MARKS,
        c.semojis,
        c.memojis,
        c.cemojis,
        c.pictographs,
        c.selectors,
        c.decomposes,
    ) && six_below(
        PARTS,
        c.pbreaks,
        c.puses,
        c.pcategories,
        c.pbreaks,
        c.puses,
        c.pcategories,
    )
}

pub fn passes(columns: &Columns) -> bool
    ensures { result ≡ true → Passes (lent columns.now) }
{
    if !below(columns) {
        return false;
    }
    if !clean_scalars(columns.scalars) || !clean_scalars(columns.pscalars) {
        return false;
    }
    ends_by(columns.firsts, columns.counts, columns.pscalars.len())
}

// The same for one parser, of a text with U+034F, which most classes do not bar: to judge it record by record takes several times as
// long.
pub fn passes_for(parser: Parser, columns: &Columns) -> bool
    ensures { result ≡ true → PassesFor parser (lent columns.now) }
{
    if !below(columns) {
        return false;
    }
    if !are_spared(parser, columns.scalars, columns.uses)
        || !are_spared(parser, columns.pscalars, columns.puses)
    {
        return false;
    }
    ends_by(columns.firsts, columns.counts, columns.pscalars.len())
}

// Whether nothing can be refused of a column of classes, of a list of this length, and one of marks.
pub fn is_clean(len: u8, classes: &[u8], marks: &[u8]) -> bool
    ensures { result ≡ true → marked_verdict len classes.now marks.now ≡ Ok tt }
{
    if MOST < classes.len() || marks.len() != classes.len() {
        return false;
    }
    let mut class: u8 = 0;
    let mut mark: u8 = 0;
    for i in 0..classes.len() {
        class = class.max(classes[i]);
        mark = mark.max(marks[i]);
    }
    class < len && mark < 2
}
