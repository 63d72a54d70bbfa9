// Decimal and hexadecimal numbers.
#![tactic(auto, unfolding(crate::specs::Numbers::digit_of))]

ghost use Rattle.std.specs.Prelude.{◌≡◌, ◌≤◌};
ghost use Rattle.cases.specs.Numbers.{radix_of, digit_of, number_of};

// The most that a first part and a count of cells can be, two bytes.
pub(crate) const MOST16: u32 = 65535;

#[derive(Clone, Copy)]
pub enum Base {
    Decimal,
    Hexadecimal,
}

fn radix(base: Base) -> u64
    ensures value { result ≡ radix_of base }
    ensures upper_bound { result ≤ 16 }
{
    match base {
        Base::Decimal => 10,
        Base::Hexadecimal => 16,
    }
}

// The value of a digit of either case, or none.
pub(crate) fn digit(byte: u8) -> Option<u8>
    ensures { result ≡ digit_of byte }
{
    match byte {
        b'0'..=b'9' => Some(byte - b'0'),
        b'A'..=b'F' => Some(byte - b'A' + 10),
        b'a'..=b'f' => Some(byte - b'a' + 10),
        _ => None,
    }
}

// The number that all of the digits write, up to `most`.
pub fn read_number(digits: &[u8], base: Base, most: u32) -> Option<u32>
    ensures { result ≡ number_of (radix_of base) most digits.now }
{
    if digits.is_empty() {
        return None;
    }
    let radix = radix(base);
    let mut v: u64 = 0;
    for &byte in digits {
        let d = u64::from(digit(byte)?);
        if radix <= d {
            return None;
        }
        v = v * radix + d;
        if u64::from(most) < v {
            return None;
        }
    }
    Some(v as u32)
}
