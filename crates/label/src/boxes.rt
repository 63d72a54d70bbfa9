// The picture of a mode: rows of boxes, one box a character, with heavy borders where a cluster begins and ends.
ghost use Rattle.std.specs.Prelude.{◌≡◌, min};

use crate::cells::Cell;
use crate::lookup::{Field, class_of};
use crate::print::{blanks, count, hex, sign};
use classes::{Mode, Shape, category, cluster_break};
use console::{decimal, write};
use records::Parser;

// How many boxes stand in a row, so that it has at most 80 columns.
const ROW: usize = 7;

// The columns inside a box, a blank before them.
const WIDTH: usize = 8;

// Where a border is: before the first box of a row, between two, or after the last.
#[derive(Clone, Copy)]
enum Side {
    Left,
    Between,
    Right,
}

// Which of the three lines of a box.
#[derive(Clone, Copy)]
enum Edge {
    Top,
    Middle,
    Bottom,
}

fn heavy(edge: Edge, side: Side) -> &'static str {
    match (edge, side) {
        (Edge::Top, Side::Left) => "┏",
        (Edge::Top, Side::Between) => "┳",
        (Edge::Top, Side::Right) => "┓",
        (Edge::Middle, _) => "┃",
        (Edge::Bottom, Side::Left) => "┗",
        (Edge::Bottom, Side::Between) => "┻",
        (Edge::Bottom, Side::Right) => "┛",
    }
}

fn light(edge: Edge, side: Side) -> &'static str {
    match (edge, side) {
        (Edge::Top, Side::Left) => "┍",
        (Edge::Top, Side::Between) => "┯",
        (Edge::Top, Side::Right) => "┑",
        (Edge::Middle, _) => "│",
        (Edge::Bottom, Side::Left) => "┕",
        (Edge::Bottom, Side::Between) => "┷",
        (Edge::Bottom, Side::Right) => "┙",
    }
}

// Heavy where a cluster begins or ends.
fn border(parts: bool, edge: Edge, side: Side) {
    let sign = if parts {
        heavy(edge, side)
    } else {
        light(edge, side)
    };
    write(sign.as_bytes());
}

// A line of the boxes of a row, with what stands in each; whether a cluster ends with the row.
fn boxes<F: Fn(&Cell)>(row: &[Cell], ends: bool, edge: Edge, inside: F)
    requires { F.IsAlwaysCallable inside }
{
    for (i, cell) in row.iter().enumerate() {
        let side = if i == 0 { Side::Left } else { Side::Between };
        border(cell.begins, edge, side);
        inside(cell);
    }
    border(ends, edge, Side::Right);
    write(b"\n");
}

// The top or the bottom of the boxes.
fn lid(row: &[Cell], ends: bool, edge: Edge) {
    boxes(row, ends, edge, |_| write("━━━━━━━━━".as_bytes()));
}

fn scalars_row(row: &[Cell], ends: bool) {
    boxes(row, ends, Edge::Middle, |cell| {
        write(b" ");
        blanks(WIDTH.saturating_sub(hex(cell.scalar)));
    });
}

// A line beneath the boxes of a row.
fn beneath<F: Fn(&Cell)>(row: &[Cell], show: F)
    requires { F.IsAlwaysCallable show }
{
    for cell in row {
        write(b"  ");
        show(cell);
    }
    write(b"\n");
}

fn name(shape: Shape) -> &'static [u8; WIDTH] {
    match shape {
        Shape::Base => b"Base    ",
        Shape::Mark => b"Mark    ",
        Shape::Control => b"Control ",
        Shape::Reph => b"Reph    ",
        Shape::Kinzi => b"Kinzi   ",
        Shape::Halant => b"Halant  ",
        Shape::VPre => b"VPre    ",
        Shape::VBlw => b"VBlw    ",
        Shape::VMPre => b"VMPre   ",
        Shape::MedialRa => b"MedialRa",
        Shape::Anusvara => b"Anusvara",
        Shape::Vs => b"Vs      ",
        Shape::Zwnj => b"Zwnj    ",
        Shape::Zwj => b"Zwj     ",
        Shape::Other => b"Other   ",
    }
}

// The character itself where it can be seen, a mark on a dotted circle; the answer is the columns that it takes.
fn seen(x: u32) -> usize {
    if class_of(Field::Category, x) != category::Other || class_of(Field::Selector, x) != 0 {
        return 0;
    }
    let kind = class_of(Field::Break, x);
    if matches!(kind, cluster_break::EX | cluster_break::SM) {
        write("◌".as_bytes());
    }
    sign(x);
    if kind == cluster_break::SM || class_of(Field::Emoji, x) == 1 {
        2
    } else {
        1
    }
}

// A word beneath each cell of which that is true, if there is one.
fn words_row<F: Fn(&Cell) -> bool>(row: &[Cell], word: &[u8; WIDTH], is_marked: F)
    requires { F.IsAlwaysCallable is_marked }
{
    if row.iter().any(|cell| is_marked(cell)) {
        beneath(row, |cell| {
            if is_marked(cell) {
                write(word);
            } else {
                blanks(WIDTH);
            }
        });
    }
}

// A row of boxes, and what stands beneath; whether a cluster ends with it.
fn draw_row(row: &[Cell], ends: bool) {
    lid(row, ends, Edge::Top);
    scalars_row(row, ends);
    lid(row, ends, Edge::Bottom);
    beneath(row, |cell| write(name(cell.shape)));
    beneath(row, |cell| {
        blanks(WIDTH.saturating_sub(seen(cell.scalar)));
    });
    words_row(row, b"repeated", |cell| cell.repeated);
    words_row(row, b"broken  ", |cell| cell.broken);
    words_row(row, b"+noted  ", |cell| cell.noted);
}

fn heading(parser: Parser, mode: Mode, cells: &[Cell]) {
    match mode {
        Mode::Crate => write(b"crate mode, "),
        Mode::Whole => write(b"whole mode, "),
    }
    match parser {
        Parser::Simple => write(b"simple parser: "),
        Parser::Myanmar => write(b"Myanmar parser: "),
        Parser::Complex => write(b"complex parser: "),
        Parser::Khmer => write(b"complex parser, Khmer: "),
    }
    count(cells.iter().filter(|cell| cell.begins).count(), b"cluster");
    write(b", ");
    count(cells.len(), b"character");
    let again = cells.iter().filter(|cell| cell.repeated).count();
    if 0 < again {
        write(b", ");
        decimal(again as u64);
        write(b" repeated");
    }
    write(b"\n");
}

// How many boxes the next row has, of so many that are left.
fn row_length(left: usize) -> usize
    ensures { result ≡ min 7 left }
{
    ROW.min(left)
}

// No `chunks`: a row is closed by what the next begins with.
pub(crate) fn draw(parser: Parser, mode: Mode, cells: &[Cell]) {
    heading(parser, mode, cells);
    let mut rest = cells;
    while !rest.is_empty() {
        let (row, next) = rest.split_at(row_length(rest.len()));
        draw_row(row, next.first().is_none_or(|cell| cell.begins));
        rest = next;
    }
}
