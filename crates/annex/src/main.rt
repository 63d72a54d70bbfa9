// The lines of the published break test files, answered by the rules of UAX #29: `G` for clusters and `W` for words, then the class and
// the mark of each character (`W;8,0 11,0 8,0`). The answer has 1 for each character that a boundary stands before, else 0; to any
// other line it is `?`. Clusters are asked of both engines, and where they differ that is told with `!`.
#![tactic(auto)]

use cases::{Kind, column8, count_items, letter, span};
use console::write;
use records::cells::first;
use uax29::graphemes::{graphemes_back, graphemes_forward};
use uax29::words::boundaries;

// The descriptor of standard input.
const STDIN: i32 = 0;

// More than a line of the files has.
const MOST: usize = 64;

// Every class and mark of the files is good, so neither engine refuses.
fn clusters(classes: &[u8], marks: &[u8], bits: &mut [u8; MOST]) {
    let mut forward = [0; MOST];
    let _ = graphemes_back(classes, marks, bits);
    let _ = graphemes_forward(classes, marks, &mut forward);
    if *bits != forward {
        write(b"!");
    }
}

// The bits, and the end of the line.
fn print(bits: &[u8]) {
    let mut text = [b'\n'; 65];
    for (to, bit) in text.iter_mut().zip(bits) {
        *to = b'0' + bit % 2;
    }
    write(first(&text, bits.len() + 1));
}

fn answer_items(kind: u8, section: &[u8], items: usize) {
    let mut classes = [0; MOST];
    let mut marks = [0; MOST];
    let mut bits = [0; MOST];
    let n = column8(section, 0, items, &mut classes);
    let m = column8(section, 1, items, &mut marks);
    if kind == b'W' {
        boundaries(&classes[..n], &marks[..m], &mut bits);
    } else {
        clusters(&classes[..n], &marks[..m], &mut bits);
    }
    print(first(&bits, n));
}

fn answer(line: &[u8]) {
    let kind = letter(span(line, b';', 0));
    let section = span(line, b';', 1);
    match count_items(section, Kind::Word) {
        Some(items) if items as usize <= MOST && matches!(kind, b'G' | b'W') => {
            answer_items(kind, section, items as usize)
        }
        _ => write(b"?\n"),
    }
}

fn main() {
    let mut input = [0; 131072];
    let n = io::read_full(STDIN, &mut input);
    for line in input[..n].split_inclusive(|&byte| byte == b'\n') {
        answer(line.strip_suffix(b"\n").unwrap_or(line));
    }
}
