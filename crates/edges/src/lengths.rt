// Columns of one length, and one column of another.
use crate::verdicts::{digit, verdict};
use console::{decimal, write};
use records::cells::first;
use records::{Columns, MOST, Parser, check, check_words};

// One cell more than a column may have.
const LONGER: usize = 4097;

const BYTES: [u8; LONGER] = [0; LONGER];

const SHORTS: [u16; LONGER] = [0; LONGER];

const WORDS: [u32; LONGER] = [0; LONGER];

// One digit or dot for each of the 18 columns, of which that one is `other` cells long and the rest `usual`, and one more where
// none is of another length.
fn each_column(other: usize, usual: usize) {
    decimal(other as u64);
    write(b" among ");
    decimal(usual as u64);
    write(b" ");
    for k in 0..19u8 {
        let len = |column: u8| if column == k { other } else { usual };
        digit(check(
            Parser::Khmer,
            &Columns {
                scalars: first(&WORDS, len(0)),
                breaks: first(&BYTES, len(1)),
                uses: first(&BYTES, len(2)),
                myanmars: first(&BYTES, len(3)),
                categories: first(&BYTES, len(4)),
                words: first(&BYTES, len(5)),
                semojis: first(&BYTES, len(6)),
                memojis: first(&BYTES, len(7)),
                cemojis: first(&BYTES, len(8)),
                pictographs: first(&BYTES, len(9)),
                selectors: first(&BYTES, len(10)),
                decomposes: first(&BYTES, len(11)),
                firsts: first(&SHORTS, len(12)),
                counts: first(&BYTES, len(13)),
                pscalars: first(&WORDS, len(14)),
                pbreaks: first(&BYTES, len(15)),
                puses: first(&BYTES, len(16)),
                pcategories: first(&BYTES, len(17)),
            },
        ));
    }
    write(b"\n");
}

pub(crate) fn columns() {
    for (other, usual) in [
        (0, 0),
        (1, 0),
        (0, 1),
        (MOST - 1, MOST),
        (MOST, MOST),
        (LONGER, MOST),
        (LONGER, LONGER),
    ] {
        each_column(other, usual);
    }
}

fn word_columns(words: usize, pictographs: usize) {
    decimal(words as u64);
    write(b" and ");
    decimal(pictographs as u64);
    verdict(check_words(first(&BYTES, words), first(&BYTES, pictographs)));
    write(b"\n");
}

fn word_cells(class: u8, pictograph: u8) {
    decimal(u64::from(class));
    write(b",");
    decimal(u64::from(pictograph));
    verdict(check_words(&[0, class], &[0, pictograph]));
    write(b"\n");
}

pub(crate) fn words() {
    for (words, pictographs) in [
        (0, 0),
        (MOST, MOST),
        (LONGER, LONGER),
        (LONGER, MOST),
        (MOST, LONGER),
        (1, 0),
        (0, 1),
    ] {
        word_columns(words, pictographs);
    }
    for (class, pictograph) in [(0, 0), (18, 1), (19, 0), (0, 2), (255, 255)] {
        word_cells(class, pictograph);
    }
}
