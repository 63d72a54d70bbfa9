// Cases from standard input, one a line; one line of answers for each.
#![tactic(auto)]

mod answers;
mod breaks;
mod clusters;
mod files;
mod out;
mod refusals;
mod texts;
mod zeros;

use console::each_chunk;
use out::Out;
use records::cells::first;

// A line that is longer is not of the layout.
const MOST: usize = 1048576;

// The line that is read: its bytes so far, whether it has more than can be kept, and how many lines stood before it.
#[derive(Drop)]
struct Line {
    bytes: [u8; MOST],
    len: usize,
    long: bool,
    before: u64,
}

impl Line {
    fn push(&mut self, byte: u8) {
        if self.len < MOST {
            self.bytes[self.len] = byte;
            self.len += 1;
        } else {
            self.long = true;
        }
    }

    // Answers the line, and begins the next one.
    fn end(&mut self, out: &mut Out) {
        let number = self.before.wrapping_add(1);
        if self.long {
            answers::not_of_layout(out, number);
        } else {
            answers::answer(out, first(&self.bytes, self.len), number);
        }
        self.len = 0;
        self.long = false;
        self.before = number;
    }

    fn take(&mut self, chunk: &[u8], out: &mut Out) {
        for &byte in chunk {
            if byte == b'\n' {
                self.end(out);
            } else {
                self.push(byte);
            }
        }
    }
}

fn main(rt: HostRuntime) {
    let mut line = Line {
        bytes: [0; MOST],
        len: 0,
        long: false,
        before: 0,
    };
    let mut out = Out::new();
    each_chunk(rt.stdin(), |chunk| line.take(chunk, &mut out));
    // the last line may end with the input
    if 0 < line.len {
        line.end(&mut out);
    }
    out.flush();
}
