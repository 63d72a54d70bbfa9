// The answers on their way out, in a buffer that is written when it is full.
ghost use Rattle.std.specs.Prelude.{◌≡◌};

use console::write;
use records::cells::first;

const SIZE: usize = 65536;

#[derive(Drop)]
pub(crate) struct Out {
    bytes: [u8; SIZE],
    len: usize,
}

impl Out {
    pub(crate) fn new() -> Out {
        Out {
            bytes: [0; SIZE],
            len: 0,
        }
    }

    pub(crate) fn flush(&mut self)
        ensures { self.new.len ≡ 0 }
    {
        write(first(&self.bytes, self.len));
        self.len = 0;
    }

    // One call for 64 KiB: a call for each byte would be slow.
    pub(crate) fn put(&mut self, byte: u8) {
        if SIZE <= self.len {
            self.flush();
        }
        self.bytes[self.len] = byte;
        self.len += 1;
    }

    pub(crate) fn text(&mut self, bytes: &[u8]) {
        for &byte in bytes {
            self.put(byte);
        }
    }

    pub(crate) fn decimal(&mut self, n: u64) {
        let mut digits = [0u8; 20];
        let k = io::decimal(n, &mut digits);
        self.text(&digits[..k]);
    }

    // The numbers, and that byte between two.
    pub(crate) fn decimals<T: Copy + Into<u64>>(&mut self, numbers: &[T], between: u8) {
        for (i, &n) in numbers.iter().enumerate() {
            if 0 < i {
                self.put(between);
            }
            self.decimal(n.into());
        }
    }

    // Capital digits, "four or as many more as needed".
    pub(crate) fn hex(&mut self, x: u32) {
        let mut digits = [0u8; 16];
        let k = io::hex(u64::from(x), 4, &mut digits);
        for digit in &digits[..k] {
            self.put(digit.to_ascii_uppercase());
        }
    }
}
