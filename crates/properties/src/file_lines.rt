// A line of a property file, without its LF.
ghost use Rattle.std.specs.Prelude.{◌≡◌, ◌≤◌, length};
ghost use Rattle.properties.specs.Lines as Lines;
ghost use Rattle.properties.specs.Lines.{is_blank, trimmed, without_CR, body_of, scalars_of, value_of, no_value, first_of, last_of, range_of, line_of, value_in};

use crate::Line;
use cases::{Base, next_of, read_number, span_at};

#[tactic(auto, unfolding(crate::specs::Lines::is_blank))]
fn is_blank(b: u8) -> bool
    ensures { result ≡ is_blank b }
{
    matches!(b, b' ' | b'\t')
}

fn leading(bytes: &[u8]) -> usize
    ensures value { result ≡ Lines.leading bytes.now }
    ensures upper_bound { result ≤ length bytes.now }
{
    for i in 0..bytes.len() {
        if !is_blank(bytes[i]) {
            return i;
        }
    }
    bytes.len()
}

fn ending(bytes: &[u8]) -> usize
    ensures value { result ≡ Lines.ending bytes.now (length bytes.now) }
    ensures upper_bound { result ≤ length bytes.now }
{
    for i in (0..bytes.len()).rev() {
        if !is_blank(bytes[i]) {
            return i + 1;
        }
    }
    0
}

#[tactic(auto, unfolding(crate::specs::Lines::untailed))]
fn untailed(bytes: &[u8]) -> &[u8]
    ensures { result.now ≡ Lines.untailed bytes.now }
{
    &bytes[..ending(bytes)]
}

fn trim(bytes: &[u8]) -> &[u8]
    ensures { result.now ≡ trimmed bytes.now }
{
    untailed(&bytes[leading(bytes)..])
}

#[tactic(auto, unfolding(crate::specs::Lines::without_CR))]
fn without_cr(line: &[u8]) -> &[u8]
    ensures { result.now ≡ without_CR line.now }
{
    match line {
        [rest @ .., b'\r'] => rest,
        _ => line,
    }
}

#[tactic(auto, unfolding(crate::specs::Lines::body_of))]
fn body_of(line: &[u8]) -> &[u8]
    ensures { result.now ≡ body_of line.now }
{
    trim(span_at(without_cr(line), 0, b'#'))
}

#[tactic(auto, unfolding(crate::specs::Lines::scalars_of))]
fn scalars_of(body: &[u8]) -> &[u8]
    ensures { result.now ≡ scalars_of body.now }
{
    trim(span_at(body, 0, b';'))
}

fn value_of(body: &[u8]) -> &[u8]
    ensures { result.now ≡ value_of body.now }
{
    trim(&body[next_of(body, 0, b';')..])
}

// What a value cannot have within.
#[tactic(auto, unfolding(crate::specs::Lines::is_between))]
fn is_between(b: u8) -> bool
    ensures { result ≡ Lines.is_between b }
{
    is_blank(b) || b == b';'
}

fn is_no_value(value: &[u8]) -> bool
    ensures { result ≡ no_value value.now }
{
    value.is_empty() || value.iter().any(|&b| is_between(b))
}

#[tactic(auto, unfolding(crate::specs::Lines::hex))]
fn hex(digits: &[u8]) -> Option<u32>
    ensures { result ≡ Lines.hex digits.now }
{
    read_number(digits, Base::Hexadecimal, 0x10FFFF)
}

#[tactic(auto, unfolding(crate::specs::Lines::first_of))]
fn first_of(scalars: &[u8]) -> Option<u32>
    ensures { result ≡ first_of scalars.now }
{
    hex(span_at(scalars, 0, b'.'))
}

fn last_of(scalars: &[u8]) -> Option<u32>
    ensures { result ≡ last_of scalars.now }
{
    let end = span_at(scalars, 0, b'.').len();
    if scalars.len() <= end {
        return first_of(scalars);
    }
    let second = end + 1;
    if scalars.len() <= second {
        return None;
    }
    if scalars[second] == b'.' {
        hex(&scalars[second + 1..])
    } else {
        None
    }
}

fn range_of(first: Option<u32>, last: Option<u32>) -> Line
    ensures { result ≡ range_of first last }
{
    match (first, last) {
        (Some(first), Some(last)) if first <= last => Line::Range { first, last },
        _ => Line::Malformed,
    }
}

// What a line holds. The value of one that holds a range is in `value_in`.
#[tactic(auto, unfolding(crate::specs::Lines::line_of))]
pub fn line_of(line: &[u8]) -> Line
    ensures { result ≡ line_of line.now }
{
    let body = body_of(line);
    if body.is_empty() {
        return Line::Skipped;
    }
    if is_no_value(value_of(body)) {
        return Line::Malformed;
    }
    let scalars = scalars_of(body);
    range_of(first_of(scalars), last_of(scalars))
}

// The bytes of a line's value.
#[tactic(auto, unfolding(crate::specs::Lines::value_in))]
pub fn value_in(line: &[u8]) -> &[u8]
    ensures { result.now ≡ value_in line.now }
{
    value_of(body_of(line))
}
