// The picture of a label: its scalars, their classes, and the clusters of both modes; or why there is none.
use crate::COLUMN;
use crate::boxes::draw;
use crate::cells::Drawn;
use crate::lookup::{Field, classed};
use crate::print::hex;
use crate::texts::{Unread, read};
use classes::{Mode, use_class};
use console::{decimal, write};
use records::cells::{cell, first};
use records::{Columns, Parser, Refusal};

// The Myanmar block and its two extensions.
fn is_myanmar(x: u32) -> bool {
    matches!(x, 0x1000..=0x109F | 0xA9E0..=0xA9FF | 0xAA60..=0xAA7F)
}

// Myanmar for a text with a Myanmar character, else simple.
fn parser_of(scalars: &[u32]) -> Parser {
    if scalars.iter().any(|&x| is_myanmar(x)) {
        Parser::Myanmar
    } else {
        Parser::Simple
    }
}

// The three refusals of the library that a label can meet.
fn refused(refusal: Refusal, scalars: &[u32]) {
    write(b"refused (");
    decimal(u64::from(refusal.number));
    write(b"): ");
    if refusal.number == 1 {
        write(b"the label has more than 4096 characters\n");
        return;
    }
    write(b"character ");
    decimal(refusal.index as u64);
    write(b" (from 0), U+");
    hex(cell(scalars, refusal.index, 0));
    if refusal.number == 3 {
        write(b", is a surrogate or above U+10FFFF\n");
    } else {
        write(b", has no classes in data/label-classes.txt\n");
    }
}

fn draw_mode(parser: Parser, mode: Mode, columns: &Columns) -> Result<(), Refusal> {
    let mut drawn = Drawn::new();
    drawn.collect(parser, mode, columns)?;
    draw(parser, mode, drawn.cells());
    Ok(())
}

// Crate mode over whole mode, unless the label is refused.
fn draw_modes(columns: &Columns) -> Result<(), Refusal> {
    let parser = parser_of(columns.scalars);
    draw_mode(parser, Mode::Crate, columns)?;
    draw_mode(parser, Mode::Whole, columns)
}

// Every column that a label does not have says "rest", Other or no, and there are no parts.
fn draw_scalars(scalars: &[u32]) -> Result<(), Refusal> {
    let n = scalars.len();
    let zeros = [0; COLUMN];
    let none = first(&zeros, n);
    let emojis = classed(Field::Emoji, scalars);
    let emojis = first(&emojis, n);
    draw_modes(&Columns {
        scalars,
        breaks: first(&classed(Field::Break, scalars), n),
        uses: first(&[use_class::REST; COLUMN], n),
        myanmars: first(&classed(Field::Myanmar, scalars), n),
        categories: first(&classed(Field::Category, scalars), n),
        words: none,
        semojis: emojis,
        memojis: emojis,
        cemojis: emojis,
        pictographs: emojis,
        selectors: first(&classed(Field::Selector, scalars), n),
        decomposes: none,
        firsts: first(&[0; COLUMN], n),
        counts: none,
        pscalars: &[],
        pbreaks: &[],
        puses: &[],
        pcategories: &[],
    })
}

// The picture of one label, or in words why there is none.
pub(crate) fn show(label: &[u8]) {
    let mut scalars = [0; COLUMN];
    match read(label, &mut scalars) {
        Ok(n) => {
            let scalars = first(&scalars, n);
            if let Err(refusal) = draw_scalars(scalars) {
                refused(refusal, scalars);
            }
        }
        Err(Unread::NotUtf8(at)) => {
            write(b"refused: no UTF-8 character begins at byte ");
            decimal(at as u64);
            write(b" (from 0)\n");
        }
        Err(Unread::NotNumber(k)) => {
            write(b"refused: word ");
            decimal(k as u64);
            write(b" (from 0) is not U+ with hexadecimal digits up to FFFFFFFF\n");
        }
    }
}
