// Blocks of a property file: its letter, a colon, and its bytes as pairs of hexadecimal digits.
#![tactic(auto, unfolding(crate::specs::Blocks::file_named, crate::specs::Blocks::block_field, crate::specs::Blocks::byte_of))]

ghost use Rattle.std.specs.Prelude.{◌≡◌, ◌++◌, min, ◌+◌, ◌*◌, ◌/◌, ◌<◌, ◌≤◌, length, drop};
ghost use Rattle.basics.specs.Columns.{cells};
ghost use Rattle.io.specs.Counts.{IsPrefixLen};
ghost use Rattle.cases.specs.Numbers.{digit_of, or_zero};
ghost use Rattle.cases.specs.Blocks.{pairs, file_named, block_field, byte_of};

use crate::numbers::digit;
use crate::spans::{count, letter, span};

// A loop, here and in `is_item`: the definition asks each index below a number (`every`), and what an `all` says is told of a list.
fn is_pairs(digits: &[u8]) -> bool
    ensures { result ≡ pairs digits.now }
{
    if digits.len() % 2 != 0 {
        return false;
    }
    for &byte in digits {
        if digit(byte).is_none() {
            return false;
        }
    }
    true
}

fn is_file(name: &[u8]) -> bool
    ensures { result ≡ file_named name.now }
{
    matches!(letter(name), b'G' | b'W')
}

pub(crate) fn is_block(item: &[u8]) -> bool
    ensures { result ≡ block_field item.now }
{
    count(item, b':') == 1 && is_file(span(item, b':', 0)) && is_pairs(span(item, b':', 1))
}

// What is no digit counts as 0.
fn half(byte: u8) -> u8
    ensures value { result ≡ or_zero (digit_of byte) }
    ensures upper_bound { result ≤ 15 }
{
    digit(byte).unwrap_or(0)
}

fn byte(digits: &[u8], i: usize) -> u8
    requires { 2 * i + 1 < length digits.now }
    ensures { result ≡ byte_of digits.now i }
{
    let high = half(digits[2 * i]);
    let low = half(digits[2 * i + 1]);
    high * 16 + low
}

// The bytes that the digits write, as far as the column goes. The answer is the number of cells written.
pub fn bytes(digits: &[u8], out: &mut [u8]) -> usize
    ensures value { result ≡ min (length digits.now / 2) (length out.old) }
    ensures prefix_len { IsPrefixLen result out.new }
    ensures out_after { out.new ≡ cells (byte_of digits.now) result ++ drop result out.old }
{
    let most = (digits.len() / 2).min(out.len());
    for i in 0..most {
        out[i] = byte(digits, i);
    }
    most
}
