// The Myanmar parser, function by function as src/text/cluster/myanmar.rs. A call of `parse` is begun with `joins` true.
#![tactic(auto, unfolding(parse::specs::Rule::run, crate::specs::Grammar::accept_with_as, crate::specs::Grammar::stacked, crate::specs::Grammar::post_base_vowel, crate::specs::Grammar::pwo_tone_mark, crate::specs::Grammar::medials, crate::specs::Grammar::vowels, crate::specs::Grammar::kinzi, crate::specs::Grammar::is_kinzi, crate::specs::Grammar::is_alone))]

ghost use Rattle.std.specs.Prelude.{◌≡◌, ◌+◌};
ghost use Rattle.basics.specs.Sets.{member};
ghost use Rattle.classes.specs.MyanmarClass as class;
ghost use Rattle.classes.specs.Scalar.{kinzi_firsts};
ghost use Rattle.parse.specs.Rule.{run, holds, while, is};
ghost use Rattle.myanmar.specs.Grammar.{scalar_at, is_kinzi, accept_with_as, stacked, post_base_vowel, pwo_tone_mark, medials, vowels, finals, kinzi, syllable, alone, is_alone, cluster};

use classes::myanmar_class::*;
use classes::{Shape, scalar};
use parse::Parse;

fn accept_with_as(mut s: Parse, text: &[u64], kind: u8) -> Parse
    ensures { result ≡ run (accept_with_as kind) text.now s }
{
    if s.kind_is(text, kind) {
        s = s.accept_any_as(text, Shape::Other);
        s = s.accept(text, As);
    }
    s
}

fn parse_stacked_consonant_or_vowel(mut s: Parse, text: &[u64]) -> Parse
    ensures { result ≡ run stacked text.now s }
{
    s = s.accept_any_as(text, Shape::Halant);
    if s.kind_in(text, [C, IV]) {
        s = s.accept_any_as(text, Shape::Base);
        s = s.accept_as(text, VS, Shape::Vs);
    } else {
        s = s.stop(text);
    }
    s
}

fn parse_stacked(mut s: Parse, text: &[u64]) -> Parse
    ensures { result ≡ run (while (is class.H) stacked) text.now s }
{
    while s.kind_is(text, H) {
        s = parse_stacked_consonant_or_vowel(s, text);
    }
    s
}

fn parse_post_base_vowel(mut s: Parse, text: &[u64]) -> Parse
    ensures { result ≡ run post_base_vowel text.now s }
{
    s = s.accept_any_as(text, Shape::Other);
    s = s.accept(text, MH);
    s = s.accept_zero_or_many(text, As);
    s = s.accept_zero_or_many(text, VAbv);
    s = s.accept_zero_or_many_as(text, A, Shape::Anusvara);
    s = accept_with_as(s, text, DB);
    s
}

fn parse_post_base_vowels(mut s: Parse, text: &[u64]) -> Parse
    ensures { result ≡ run (while (is class.VPst) post_base_vowel) text.now s }
{
    while s.kind_is(text, VPst) {
        s = parse_post_base_vowel(s, text);
    }
    s
}

fn parse_pwo_tone_mark(mut s: Parse, text: &[u64]) -> Parse
    ensures { result ≡ run pwo_tone_mark text.now s }
{
    s = s.accept_any_as(text, Shape::Other);
    if s.kind_is(text, As) {
        s = s.accept_any_as(text, Shape::Other);
        s = s.accept_as(text, A, Shape::Anusvara);
    } else {
        // "This goes against the spec, but seems to be necessary", says the Rust of the zero or many A.
        s = s.accept_zero_or_many_as(text, A, Shape::Anusvara);
        s = s.accept(text, DB);
        s = s.accept(text, As);
    }
    s
}

fn parse_pwo_tone_marks(mut s: Parse, text: &[u64]) -> Parse
    ensures { result ≡ run (while (is class.PT) pwo_tone_mark) text.now s }
{
    while s.kind_is(text, PT) {
        s = parse_pwo_tone_mark(s, text);
    }
    s
}

fn parse_medials(mut s: Parse, text: &[u64]) -> Parse
    ensures { result ≡ run medials text.now s }
{
    s = s.accept_zero_or_many(text, As);
    s = accept_with_as(s, text, MY);
    s = s.accept_as(text, MR, Shape::MedialRa);
    if s.kind_is(text, MW) {
        s = s.accept_any_as(text, Shape::Other);
        s = s.accept(text, MH);
        s = s.accept(text, As);
    } else {
        s = accept_with_as(s, text, MH);
    }
    s
}

fn parse_vowels(s: Parse, text: &[u64]) -> Parse
    ensures { result ≡ run vowels text.now s }
{
    let s = s
        .accept_zero_or_many_as(text, VPre, Shape::VPre)
        .accept_zero_or_many(text, VAbv)
        .accept_zero_or_many_as(text, VBlw, Shape::VBlw)
        .accept_zero_or_many_as(text, A, Shape::Anusvara);
    accept_with_as(s, text, DB)
}

fn parse_finals(s: Parse, text: &[u64]) -> Parse
    ensures { result ≡ run finals text.now s }
{
    let s = parse_post_base_vowels(s, text);
    let s = parse_pwo_tone_marks(s, text);
    s.accept_zero_or_many(text, V).accept(text, J)
}

pub fn begins_kinzi(x: u32) -> bool
    ensures { result ≡ member kinzi_firsts x }
{
    matches!(x, scalar::NGA | scalar::RA | scalar::MON_NGA)
}

// The scalar k tokens on from a place, for the look-ahead.
fn scalar_on(text: &[u64], i: usize, k: usize) -> u32
    ensures { result ≡ scalar_at text.now (i + k) }
{
    if i < text.len() && k < text.len() - i {
        token::scalar(text[i + k])
    } else {
        0
    }
}

fn kinzi_at(text: &[u64], i: usize) -> bool
    ensures { result ≡ is_kinzi text.now i }
{
    begins_kinzi(scalar_on(text, i, 0))
        && scalar_on(text, i, 1) == scalar::ASAT
        && scalar_on(text, i, 2) == scalar::VIRAMA
}

fn is_kinzi(s: Parse, text: &[u64]) -> bool
    ensures { result ≡ holds text.now is_kinzi s }
{
    s.going() && kinzi_at(text, s.at)
}

fn parse_kinzi(s: Parse, text: &[u64]) -> Parse
    ensures { result ≡ run kinzi text.now s }
{
    if is_kinzi(s, text) {
        s.thrice(text, Shape::Kinzi)
    } else {
        s
    }
}

fn parse_syllable(mut s: Parse, text: &[u64]) -> Parse
    ensures { result ≡ run syllable text.now s }
{
    if s.kind_in(text, [C, IV, D, DB]) {
        s = s.accept_any_as(text, Shape::Base);
        s = s.accept_as(text, VS, Shape::Vs);
        s = parse_stacked(s, text);
        s = parse_medials(s, text);
        s = parse_vowels(s, text);
        s = parse_finals(s, text);
    } else {
        s = s.set_broken(text);
        s = s.accept_any_as(text, Shape::Other);
    }
    s
}

fn is_alone(s: Parse, text: &[u64]) -> bool
    ensures { result ≡ holds text.now is_alone s }
{
    s.kind_in(text, [P, S, R, WJ, D0])
}

pub fn parse(mut s: Parse, text: &[u64]) -> Parse
    ensures { result ≡ run cluster text.now s }
{
    if s.emoji(text) {
        s = s.parse_emoji(text);
    } else if s.kind_is(text, O) {
        s = s.parse_other(text);
    } else if is_alone(s, text) {
        s = s.accept_any_as(text, Shape::Other);
    } else {
        s = parse_kinzi(s, text);
        s = parse_syllable(s, text);
    }
    s
}
