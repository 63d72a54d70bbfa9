// The scalars that a label is written with: UTF-8, or numbers such as U+1004 with one blank between.
ghost use Rattle.std.specs.Prelude.{◌≡◌, cond, ◌+◌, min, ltb, length, take, set};
ghost use Rattle.label.specs.Numbers.{begins, scalar_in, numbers_from, counted_of, label_scalars, label_of};
ghost use Rattle.label.specs.Utf8.{scalars_from, read_of};

use crate::utf8::decode;
use cases::{Base, next_of, read_number, span_at};
use records::cells::cell;

// What could not be read: the byte that begins no character, or the word that is no number, counted from 0.
#[derive(Clone, Copy)]
pub enum Unread {
    NotUtf8(usize),
    NotNumber(usize),
}

// The readers go on by as much as a character or a word is long: no range counts the places.

// A cell past the column's end is dropped: the column is longer than an accepted text.
fn store(out: &mut [u32], n: usize, x: u32) -> usize
    ensures value { result ≡ cond (ltb n (length out.old)) (n + 1) n }
    ensures out_after { out.new ≡ set out.old n x }
{
    if n < out.len() {
        out[n] = x;
        return n + 1;
    }
    n
}

#[tactic(auto, using(crate::proofs::Reading::reading_start))]
fn read_utf8(bytes: &[u8], out: &mut [u32]) -> Result<usize, Unread>
    ensures value { result ≡ read_of bytes.now (length out.old) }
    ensures out_after { take (min (length (scalars_from 0 bytes.now)) (length out.old)) out.new ≡ take (min (length (scalars_from 0 bytes.now)) (length out.old)) (scalars_from 0 bytes.now) }
{
    let mut at: usize = 0;
    let mut n: usize = 0;
    while at < bytes.len() {
        let Some((x, length)) = decode(&bytes[at..]) else {
            return Err(Unread::NotUtf8(at));
        };
        n = store(out, n, x);
        at += length;
    }
    Ok(n)
}

#[tactic(auto, unfolding(crate::specs::Numbers::begins))]
fn begins_number(word: &[u8]) -> bool
    ensures { result ≡ begins word.now }
{
    cell(word, 0, 0) == b'U' && cell(word, 1, 0) == b'+'
}

#[tactic(auto, using(crate::proofs::Numbers::short_word, crate::proofs::Numbers::other_word, crate::proofs::Numbers::number_word))]
fn number(word: &[u8]) -> Option<u32>
    ensures { result ≡ scalar_in word.now }
{
    if word.len() < 2 || !begins_number(word) {
        return None;
    }
    read_number(&word[2..], Base::Hexadecimal, u32::MAX)
}

#[tactic(auto, using(crate::proofs::Numbers::counting_start, crate::proofs::Numbers::next_falls))]
fn read_numbers(bytes: &[u8], out: &mut [u32]) -> Result<usize, Unread>
    ensures value { result ≡ counted_of bytes.now (length out.old) }
    ensures out_after { take (min (length (numbers_from 0 bytes.now)) (length out.old)) out.new ≡ take (min (length (numbers_from 0 bytes.now)) (length out.old)) (numbers_from 0 bytes.now) }
{
    let mut at: usize = 0;
    let mut n: usize = 0;
    while at < bytes.len() {
        let Some(x) = number(span_at(bytes, at, b' ')) else {
            return Err(Unread::NotNumber(n));
        };
        n = store(out, n, x);
        at = next_of(bytes, at, b' ');
    }
    Ok(n)
}

// The answer says how many cells are written, or why none are asked for.
#[tactic(auto, unfolding(crate::specs::Numbers::label_of, crate::specs::Numbers::label_scalars))]
pub(crate) fn read(bytes: &[u8], out: &mut [u32]) -> Result<usize, Unread>
    ensures value { result ≡ label_of bytes.now (length out.old) }
    ensures out_after { take (min (length (label_scalars bytes.now)) (length out.old)) out.new ≡ take (min (length (label_scalars bytes.now)) (length out.old)) (label_scalars bytes.now) }
{
    if begins_number(bytes) {
        read_numbers(bytes, out)
    } else {
        read_utf8(bytes, out)
    }
}
