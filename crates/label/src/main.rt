// A label's clusters as lines of boxes, crate mode over whole mode. The label is what the arguments say, or each line of standard
// input where the argument is -, or the story's label where there is none.
#![tactic(auto)]

mod boxes;
mod cells;
mod labels;
mod lookup;
mod print;
mod table;
mod texts;
mod utf8;

use console::{each_chunk, write};
use labels::show;
use records::cells::first;
use std::env::{Env, FillError};
use std::io::Stdin;

// One cell more than a text may have, so that a longer one is seen.
const COLUMN: usize = 4097;

// A label that is longer is refused; one of 4097 characters fits, so that the library sees it.
const MOST: usize = 65536;

// The bytes of a label so far, and whether it has more than can be kept.
#[derive(Drop)]
struct Label {
    bytes: [u8; MOST],
    len: usize,
    long: bool,
}

impl Label {
    fn new() -> Label {
        Label {
            bytes: [0; MOST],
            len: 0,
            long: false,
        }
    }

    fn push(&mut self, byte: u8) {
        if self.len < MOST {
            self.bytes[self.len] = byte;
            self.len += 1;
        } else {
            self.long = true;
        }
    }

    fn bytes(&self) -> &[u8] {
        first(&self.bytes, self.len)
    }

    fn show(&self) {
        if self.long {
            write(b"refused: the label has more than 65536 bytes\n");
        } else {
            show(self.bytes());
        }
    }

    // A line of standard input ends a label.
    fn take(&mut self, chunk: &[u8]) {
        for &byte in chunk {
            if byte == b'\n' {
                self.show();
                write(b"\n");
                self.len = 0;
                self.long = false;
            } else {
                self.push(byte);
            }
        }
    }

    // An argument after a blank; the answer says whether there is one of that number, the program's name being number 0.
    fn take_argument(&mut self, rt: HostRuntime, i: usize) -> bool {
        let mut word = io::large_buffer();
        match rt.arg(i, &mut word) {
            Ok(n) => {
                if 1 < i {
                    self.push(b' ');
                }
                for &byte in &word[..n] {
                    self.push(byte);
                }
            }
            Err(FillError::NotPresent) => return false,
            Err(_) => self.long = true,
        }
        true
    }
}

fn show_lines(input: Stdin) {
    let mut label = Label::new();
    each_chunk(input, |chunk| label.take(chunk));
    // the last line may end with the input
    if 0 < label.len {
        label.show();
    }
}

fn main(rt: HostRuntime) {
    let mut label = Label::new();
    // the arguments end, so the count never comes to the last number
    let count = (1..usize::MAX)
        .take_while(|&i| label.take_argument(rt, i))
        .count();
    if count == 0 {
        show(b"U+1004 U+103A U+1039");
    } else if label.bytes() == b"-".as_slice() {
        show_lines(rt.stdin());
    } else {
        label.show();
    }
}
