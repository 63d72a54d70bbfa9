// UTF-8: the character that some bytes begin with.
#![tactic(auto, unfolding(crate::specs::Utf8::tail, crate::specs::Utf8::six, crate::specs::Utf8::two, crate::specs::Utf8::three_of, crate::specs::Utf8::three, crate::specs::Utf8::four_of, crate::specs::Utf8::four, crate::specs::Utf8::decode_from, crate::specs::Utf8::decode_of))]

ghost use Rattle.std.specs.Prelude.{◌≡◌, ◌<◌};
ghost use Rattle.label.specs.Utf8 as Utf8;
ghost use Rattle.label.specs.Utf8.{tail, decode_of};

use records::cells::cell;

// Whether the byte goes on with a character. No byte past the end does.
fn is_tail(rest: &[u8], i: usize) -> bool
    ensures { result ≡ tail rest.now i }
{
    cell(rest, i, 0) / 64 == 2
}

// The lowest six bits of a byte.
fn six(rest: &[u8], i: usize) -> u32
    ensures value { result ≡ Utf8.six rest.now i }
    ensures upper_bound { result < 64 }
{
    u32::from(cell(rest, i, 0) % 64)
}

fn two(rest: &[u8], lead: u32) -> Option<(u32, usize)>
    ensures { result ≡ Utf8.two rest.now lead }
{
    if is_tail(rest, 1) {
        Some((lead % 32 * 64 + six(rest, 1), 2))
    } else {
        None
    }
}

// Not those that two bytes write, and not the surrogates.
fn three_of(value: u32) -> Option<(u32, usize)>
    ensures { result ≡ Utf8.three_of value }
{
    match value {
        0..0x800 | 0xD800..0xE000 => None,
        _ => Some((value, 3)),
    }
}

fn three(rest: &[u8], lead: u32) -> Option<(u32, usize)>
    ensures { result ≡ Utf8.three rest.now lead }
{
    if is_tail(rest, 1) && is_tail(rest, 2) {
        three_of(lead % 16 * 4096 + six(rest, 1) * 64 + six(rest, 2))
    } else {
        None
    }
}

// Not those that three bytes write, and none above U+10FFFF.
fn four_of(value: u32) -> Option<(u32, usize)>
    ensures { result ≡ Utf8.four_of value }
{
    match value {
        0x10000..0x110000 => Some((value, 4)),
        _ => None,
    }
}

fn four(rest: &[u8], lead: u32) -> Option<(u32, usize)>
    ensures { result ≡ Utf8.four rest.now lead }
{
    if is_tail(rest, 1) && is_tail(rest, 2) && is_tail(rest, 3) {
        four_of(lead % 8 * 262144 + six(rest, 1) * 4096 + six(rest, 2) * 64 + six(rest, 3))
    } else {
        None
    }
}

// The scalar that the bytes begin with and how many bytes it takes. C0, C1 and F8 to FF begin nothing; nor does a byte that goes on with
// a character.
pub(crate) fn decode(rest: &[u8]) -> Option<(u32, usize)>
    ensures { result ≡ decode_of rest.now }
{
    let lead = u32::from(cell(rest, 0, 0));
    match lead {
        0..0x80 => Some((lead, 1)),
        0xC2..0xE0 => two(rest, lead),
        0xE0..0xF0 => three(rest, lead),
        0xF0..0xF8 => four(rest, lead),
        _ => None,
    }
}
