// What the programs share: text, numbers and the parts of a refusal on standard output, and standard input.
#![tactic(auto)]

ghost use Rattle.std.specs.Prelude.{◌≡◌};
ghost use Rattle.console.specs.Letters.{side_letter};

use records::{Refusal, Side};
use std::io::{Read, Stdin};

// The descriptor of standard output.
const STDOUT: i32 = 1;

pub fn write(text: &[u8]) {
    io::write_all(STDOUT, text);
}

pub fn decimal(n: u64) {
    io::print_decimal(STDOUT, n);
}

// Digits in lower case, four at least.
pub fn hex(n: u32) {
    io::print_hex(STDOUT, u64::from(n), 4);
}

// The letter that a line of answers has for a side.
pub fn side_letter(side: Side) -> u8
    ensures { result ≡ side_letter side }
{
    match side {
        Side::Record => b'r',
        Side::Part => b'p',
        Side::Neither => b'-',
    }
}

// "R NUMBER INDEX SIDE". It is no Display: what is written goes to standard output as bytes, through no formatter.
pub fn refusal(r: Refusal) {
    write(b"R ");
    decimal(u64::from(r.number));
    write(b" ");
    decimal(r.index as u64);
    write(&[b' ', side_letter(r.side)]);
}

// Hands on what each read of the input gives, as it comes: a read does not wait for a full buffer, so that each line can be answered as
// it is written. A read that fails ends the input. Nothing says that it ends, so the reads are counted up to a number that no run comes
// to.
pub fn each_chunk<F: FnMut(&[u8])>(mut input: Stdin, mut f: F)
    requires { F.IsAlwaysCallable f }
{
    let mut chunk = io::large_buffer();
    for _ in 0..u64::MAX {
        match input.read(&mut chunk) {
            Ok(n) if 0 < n => f(&chunk[..n]),
            _ => return,
        }
    }
}
