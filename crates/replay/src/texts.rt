// The lines of text: its columns, and the stepping calls or the full run over them.
use crate::clusters::call;
use crate::out::Out;
use crate::refusals::refusal;
use crate::zeros;
use crate::zeros::{CELLS, COLUMN, cells};
use cases::{column8, column16, column32, span};
use classes::Mode;
use parse::Place;
use records::cells::first;
use records::{Columns, Parser};
use segment::{Answer, Segmenter, What, count_of, run};

// What a line asks for: a full run into so many cells, or stepping calls from a place on.
#[derive(Clone, Copy)]
pub(crate) struct Ask {
    pub parser: Parser,
    pub mode: Mode,
    pub full: bool,
    pub number: usize,
}

// The stepping calls from the segmenter's place on. Each passes a token, so the loop ends.
#[tactic(auto, using(segment::proofs::Left::fewer))]
fn calls(out: &mut Out, start: Segmenter, columns: &Columns) {
    let mut state = start;
    while let Answer {
        state: after,
        what: What::Found,
        cluster,
        ..
    } = state.next(columns)
    {
        call(out, state.place.at, after.place.at, &cluster);
        state = after;
    }
}

// "TOKENS|call|call|…", or the refusal of the first call.
fn steps(out: &mut Out, ask: Ask, columns: &Columns) {
    let Ask { parser, mode, .. } = ask;
    let start = Segmenter {
        parser,
        mode,
        place: Place { at: ask.number },
    };
    if let What::Refused(r) = start.next(columns).what {
        return refusal(out, r);
    }
    out.decimal(count_of(parser, mode, columns) as u64);
    calls(out, start, columns);
}

// "scalar.class.cluster" of each cell, one blank between.
fn written(out: &mut Out, scalars: &[u32], classes: &[u8], clusters: &[u16]) {
    let cells = scalars.iter().zip(classes).zip(clusters);
    for (i, ((&scalar, &class), &cluster)) in cells.enumerate() {
        if 0 < i {
            out.put(b' ');
        }
        out.hex(scalar);
        out.put(b'.');
        out.decimals(&[u16::from(class), cluster], b'.');
    }
}

// "CLUSTERS PUSHED|scalar.class.cluster …", or the refusal.
fn full_run(out: &mut Out, ask: Ask, columns: &Columns) {
    let size = ask.number.min(CELLS);
    let mut scalars = cells(0);
    let mut classes = cells(0);
    let mut clusters = cells(0);
    let answer = run(
        ask.parser,
        ask.mode,
        columns,
        &mut scalars[..size],
        &mut classes[..size],
        &mut clusters[..size],
    );
    if let Err(r) = answer.verdict {
        return refusal(out, r);
    }
    let n = answer.characters;
    out.decimals(&[answer.clusters as u64, n as u64], b' ');
    out.put(b'|');
    written(
        out,
        first(&scalars, n),
        first(&classes, n),
        first(&clusters, n),
    );
}

fn asked(out: &mut Out, ask: Ask, columns: &Columns) {
    if ask.full {
        full_run(out, ask, columns);
    } else {
        steps(out, ask, columns);
    }
}

// Field k of the first n items. One generic function, handed the reader of its width, copies each column once more: a replay of all
// lines then takes 3% more instructions.
fn read8(section: &[u8], k: usize, n: usize) -> [u8; COLUMN] {
    let mut column = zeros::column(0);
    column8(section, k, n, &mut column);
    column
}

fn read16(section: &[u8], k: usize, n: usize) -> [u16; COLUMN] {
    let mut column = zeros::column(0);
    column16(section, k, n, &mut column);
    column
}

fn read32(section: &[u8], k: usize, n: usize) -> [u32; COLUMN] {
    let mut column = zeros::column(0);
    column32(section, k, n, &mut column);
    column
}

// The columns are as long as the text has items.
pub(crate) fn text(out: &mut Out, line: &[u8], ask: Ask, n: usize, m: usize) {
    let records = span(line, b';', 4);
    let parts = span(line, b';', 5);
    asked(
        out,
        ask,
        &Columns {
            scalars: first(&read32(records, 0, n), n),
            breaks: first(&read8(records, 1, n), n),
            uses: first(&read8(records, 2, n), n),
            myanmars: first(&read8(records, 3, n), n),
            categories: first(&read8(records, 4, n), n),
            words: first(&read8(records, 5, n), n),
            semojis: first(&read8(records, 6, n), n),
            memojis: first(&read8(records, 7, n), n),
            cemojis: first(&read8(records, 8, n), n),
            pictographs: first(&read8(records, 9, n), n),
            selectors: first(&read8(records, 10, n), n),
            decomposes: first(&read8(records, 11, n), n),
            firsts: first(&read16(records, 12, n), n),
            counts: first(&read8(records, 13, n), n),
            pscalars: first(&read32(parts, 0, m), m),
            pbreaks: first(&read8(parts, 1, m), m),
            puses: first(&read8(parts, 2, m), m),
            pcategories: first(&read8(parts, 3, m), m),
        },
    );
}
