// The small pieces of a line.
use console::{decimal, write};

// "1 cluster", "2 clusters"
pub(crate) fn count(n: usize, noun: &[u8]) {
    decimal(n as u64);
    write(b" ");
    write(noun);
    if n != 1 {
        write(b"s");
    }
}

pub(crate) fn blanks(n: usize) {
    for _ in 0..n {
        write(b" ");
    }
}

// Capital digits, four or as many more as needed; the answer is how many.
pub(crate) fn hex(x: u32) -> usize {
    let mut digits = [0u8; 16];
    let n = io::hex(u64::from(x), 4, &mut digits);
    for digit in &digits[..n] {
        write(&[digit.to_ascii_uppercase()]);
    }
    n
}

// The character itself, as UTF-8.
pub(crate) fn sign(x: u32) {
    if let Some(c) = char::from_u32(x) {
        write(c.encode_utf8(&mut [0; 4]).as_bytes());
    }
}
