// Texts of two records and two parts: every cell is 0, and every scalar U+0041, but for at most three cells.
use crate::verdicts::{digit, verdict};
use classes::{category, cluster_break, myanmar_class, scalar, use_class, word_break};
use console::{decimal, hex, write};
use records::{Columns, Parser, Refusal, check};

const PARSERS: [Parser; 4] = [
    Parser::Simple,
    Parser::Myanmar,
    Parser::Complex,
    Parser::Khmer,
];

// A cell of the 18 columns, counted from 0 in their order, and its value.
#[derive(Clone, Copy)]
struct Cell {
    column: u8,
    index: u8,
    value: u32,
}

fn at(column: u8, index: u8, value: u32) -> Cell {
    Cell {
        column,
        index,
        value,
    }
}

fn value(cells: &[Cell], column: u8, index: u8, usual: u32) -> u32 {
    cells
        .iter()
        .find(|c| c.column == column && c.index == index)
        .map_or(usual, |c| c.value)
}

fn wides(cells: &[Cell], column: u8) -> [u32; 2] {
    [0, 1].map(|i| value(cells, column, i, 0x41))
}

fn bytes(cells: &[Cell], column: u8) -> [u8; 2] {
    [0, 1].map(|i| (value(cells, column, i, 0) % 256) as u8)
}

fn shorts(cells: &[Cell], column: u8) -> [u16; 2] {
    [0, 1].map(|i| (value(cells, column, i, 0) % 65536) as u16)
}

fn checked(parser: Parser, cells: &[Cell]) -> Result<(), Refusal> {
    check(
        parser,
        &Columns {
            scalars: &wides(cells, 0),
            breaks: &bytes(cells, 1),
            uses: &bytes(cells, 2),
            myanmars: &bytes(cells, 3),
            categories: &bytes(cells, 4),
            words: &bytes(cells, 5),
            semojis: &bytes(cells, 6),
            memojis: &bytes(cells, 7),
            cemojis: &bytes(cells, 8),
            pictographs: &bytes(cells, 9),
            selectors: &bytes(cells, 10),
            decomposes: &bytes(cells, 11),
            firsts: &shorts(cells, 12),
            counts: &bytes(cells, 13),
            pscalars: &wides(cells, 14),
            pbreaks: &bytes(cells, 15),
            puses: &bytes(cells, 16),
            pcategories: &bytes(cells, 17),
        },
    )
}

// "COLUMN.INDEX=VALUE" and the verdicts for the four parsers.
fn single(column: u8, index: u8, value: u32) {
    decimal(u64::from(column));
    write(b".");
    decimal(u64::from(index));
    write(b"=");
    hex(value);
    for parser in PARSERS {
        verdict(checked(parser, &[at(column, index, value)]));
    }
    write(b"\n");
}

// The lowest code, the last good one, the first bad one and the largest, at both indices.
fn code_edges(column: u8, len: u8) {
    for index in 0..2 {
        for value in [0, len.saturating_sub(1), len, 255] {
            single(column, index, u32::from(value));
        }
    }
}

fn scalar_edges(column: u8) {
    for (index, value) in [
        (0, 0),
        (1, 0xD7FF),
        (0, 0xD800),
        (1, 0xDFFF),
        (0, 0xE000),
        (0, 0x10FFFF),
        (1, 0x110000),
        (0, 0xFFFFFFFF),
    ] {
        single(column, index, value);
    }
}

pub(crate) fn single_cells() {
    scalar_edges(0);
    code_edges(1, cluster_break::LEN);
    code_edges(2, use_class::LEN);
    code_edges(3, myanmar_class::LEN);
    code_edges(4, category::LEN);
    code_edges(5, word_break::LEN);
    // the columns of marks
    for column in 6..12 {
        code_edges(column, 2);
    }
    scalar_edges(14);
    code_edges(15, cluster_break::LEN);
    code_edges(16, use_class::LEN);
    code_edges(17, category::LEN);
}

// "FIRST+COUNT" of the second record, against two parts.
fn run_of_parts(first: u32, count: u32) {
    decimal(u64::from(first));
    write(b"+");
    decimal(u64::from(count));
    verdict(checked(Parser::Simple, &[at(12, 1, first), at(13, 1, count)]));
    write(b"\n");
}

pub(crate) fn runs_of_parts() {
    for count in 0..5 {
        for first in [0, 1, 2, 3, 65535] {
            run_of_parts(first, count);
        }
    }
    run_of_parts(0, 255);
}

// One digit or dot for each USE class: the scalar with that class, in a record (columns 0 and 2) or in a part (14 and 16).
fn classes_of(parser: Parser, scalar_column: u8, use_column: u8, x: u32) {
    hex(x);
    write(b" ");
    for class in 0..use_class::LEN {
        digit(checked(
            parser,
            &[at(scalar_column, 1, x), at(use_column, 1, u32::from(class))],
        ));
    }
    write(b"\n");
}

// U+034F and its two neighbours.
pub(crate) fn joiners() {
    for parser in PARSERS {
        for x in scalar::CGJ - 1..scalar::CGJ + 2 {
            classes_of(parser, 0, 2, x);
            classes_of(parser, 14, 16, x);
        }
    }
}

// One digit or dot for each of U+17BD to U+17C6 as the first record, with two cells given: the mark and the count, or the count and
// the first part's scalar.
fn signs_of(parser: Parser, a: Cell, b: Cell) {
    for x in 0x17BD..0x17C7 {
        digit(checked(parser, &[at(0, 0, x), a, b]));
    }
    write(b"\n");
}

pub(crate) fn khmer_signs() {
    for parser in PARSERS {
        for count in 0..3 {
            let count = at(13, 0, count);
            signs_of(parser, count, at(14, 0, scalar::KHMER_E));
            signs_of(parser, count, at(14, 0, scalar::KHMER_E - 1));
            signs_of(parser, at(11, 0, 1), count);
        }
    }
}

// Two faults at once: which one is named.
pub(crate) fn orders() {
    for faults in [
        // a part's before a record's, whatever their numbers
        [at(0, 0, 0xD800), at(17, 1, 3)],
        // the lower index before the lower number
        [at(0, 1, 0xD800), at(13, 0, 4)],
        [at(14, 1, 0xD800), at(15, 0, 14)],
        // the lower number within one index
        [at(1, 0, 14), at(0, 0, 0x110000)],
        [at(12, 0, 3), at(5, 0, 19)],
        [at(13, 0, 4), at(11, 0, 2)],
        // 7 after every record's
        [at(0, 0, scalar::KHMER_OE), at(13, 1, 4)],
    ] {
        verdict(checked(Parser::Khmer, &faults));
        write(b"\n");
    }
}
