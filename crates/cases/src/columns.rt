// The columns of a text: one field of each item.
#![tactic(auto, unfolding(crate::specs::Items::field_of))]

ghost use Rattle.std.specs.Prelude.{◌≡◌, ◌++◌, min, ◌≤◌, length, drop};
ghost use Rattle.basics.specs.Columns.{cells};
ghost use Rattle.cases.specs.Numbers.{most16, radix_of, number_of, or_zero};
ghost use Rattle.io.specs.Counts.{IsPrefixLen};
ghost use Rattle.std.specs.Fn.{FnReturnsAt};
ghost use Rattle.cases.specs.Columns.{Filled};
ghost use Rattle.cases.specs.Items.{field_of, cell_of};

use crate::numbers::{Base, MOST16, read_number};
use crate::spans::{next_of, span, span_at};

// The number that decimals or hexadecimals write, or 0.
pub(crate) fn value(digits: &[u8], base: Base, most: u32) -> u32
    ensures value { result ≡ or_zero (number_of (radix_of base) most digits.now) }
    ensures upper_bound { result ≤ most }
{
    read_number(digits, base, most).unwrap_or(0)
}

pub fn field8(item: &[u8], k: usize) -> u8
    ensures { result ≡ field_of 10 255 k item.now }
{
    value(span(item, b',', k), Base::Decimal, 255) as u8
}

pub fn field16(item: &[u8], k: usize) -> u16
    ensures { result ≡ field_of 10 most16 k item.now }
{
    value(span(item, b',', k), Base::Decimal, MOST16) as u16
}

pub fn field32(item: &[u8], k: usize) -> u32
    ensures { result ≡ field_of 16 4294967295 k item.now }
{
    value(span(item, b',', k), Base::Hexadecimal, u32::MAX)
}

// What `read` makes of each of the first n items, as far as the column goes. The answer is the number of cells written.
fn column<T: Copy, F: Fn(&[u8]) -> T>(section: &[u8], n: usize, out: &mut [T], read: F) -> usize
    requires { F.IsAlwaysCallable read }
    ensures value { result ≡ min n (length out.old) }
    ensures written { Filled (FnReturnsAt F.Fn read) section.now out.old result out.new }
{
    let most = n.min(out.len());
    let mut at: usize = 0;
    for i in 0..most {
        out[i] = read(span_at(section, at, b' '));
        at = next_of(section, at, b' ');
    }
    most
}

// Field k of the first n items.
pub fn column8(section: &[u8], k: usize, n: usize, out: &mut [u8]) -> usize
    ensures value { result ≡ min n (length out.old) }
    ensures prefix_len { IsPrefixLen result out.new }
    ensures out_after { out.new ≡ cells (cell_of 10 255 k section.now) result ++ drop result out.old }
{
    column(section, n, out, |item| field8(item, k))
}

pub fn column16(section: &[u8], k: usize, n: usize, out: &mut [u16]) -> usize
    ensures value { result ≡ min n (length out.old) }
    ensures prefix_len { IsPrefixLen result out.new }
    ensures out_after { out.new ≡ cells (cell_of 10 most16 k section.now) result ++ drop result out.old }
{
    column(section, n, out, |item| field16(item, k))
}

pub fn column32(section: &[u8], k: usize, n: usize, out: &mut [u32]) -> usize
    ensures value { result ≡ min n (length out.old) }
    ensures prefix_len { IsPrefixLen result out.new }
    ensures out_after { out.new ≡ cells (cell_of 16 4294967295 k section.now) result ++ drop result out.old }
{
    column(section, n, out, |item| field32(item, k))
}
