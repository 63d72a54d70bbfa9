// The simple parser, src/text/cluster/simple.rs: grapheme clusters by the cluster break. A text is tokens whose kind is their cluster
// break, and a call is begun with `joins` false, since U+034F is nothing special here. Functions and arms in the order of the Rust.
#![tactic(auto, unfolding(parse::specs::Rule::run, crate::specs::Grammar::start, crate::specs::Grammar::control, crate::specs::Grammar::syllable, crate::specs::Grammar::leading, crate::specs::Grammar::vowel, crate::specs::Grammar::trailing, crate::specs::Grammar::other, crate::specs::Grammar::is_extension, crate::specs::Grammar::extension, crate::specs::Grammar::extend, crate::specs::Grammar::combining))]

ghost use Rattle.std.specs.Prelude.{◌≡◌};
ghost use Rattle.parse.specs.Rule.{run, holds, while};
ghost use Rattle.simple.specs.Grammar.{cluster, start, control, syllable, leading, vowel, trailing, other, is_extension, extension, extend, combining};

use classes::Shape;
use classes::cluster_break::*;
use classes::scalar::ZWNJ;
use parse::Parse;

// One cluster.
pub fn parse(mut s: Parse, text: &[u64]) -> Parse
    ensures { result ≡ run cluster text.now s }
{
    s = s.accept_zero_or_many_as(text, PP, Shape::Base);
    s = parse_start(s, text);
    s = parse_extensions(s, text);
    s
}

fn parse_start(s: Parse, text: &[u64]) -> Parse
    ensures { result ≡ run start text.now s }
{
    if s.emoji(text) {
        s.parse_emoji(text)
    } else {
        parse_control(s, text)
    }
}

fn parse_control(mut s: Parse, text: &[u64]) -> Parse
    ensures { result ≡ run control text.now s }
{
    if s.kind_is(text, CN) {
        s = s.accept_any_as(text, Shape::Control);
    } else if s.kind_is(text, LF) {
        s = s.parse_newline(text);
    } else if s.kind_is(text, CR) {
        s = s.parse_newline_with(text, LF);
        s = s.accept_as(text, LF, Shape::Control);
    } else {
        s = parse_syllable(s, text);
    }
    s
}

fn parse_syllable(s: Parse, text: &[u64]) -> Parse
    ensures { result ≡ run syllable text.now s }
{
    if s.kind_is(text, L) {
        parse_leading(s, text)
    } else if s.kind_in(text, [LV, V]) {
        parse_vowel(s, text)
    } else if s.kind_in(text, [LVT, T]) {
        parse_trailing(s, text)
    } else {
        parse_other(s, text)
    }
}

fn parse_leading(mut s: Parse, text: &[u64]) -> Parse
    ensures { result ≡ run leading text.now s }
{
    s = s.accept_any_as(text, Shape::Base);
    if s.kind_in(text, [L, V, LV, LVT]) {
        s = s.accept_any_as(text, Shape::Base);
    }
    s
}

fn parse_vowel(mut s: Parse, text: &[u64]) -> Parse
    ensures { result ≡ run vowel text.now s }
{
    s = s.accept_any_as(text, Shape::Base);
    if s.kind_in(text, [V, T]) {
        s = s.accept_any_as(text, Shape::Base);
    }
    s
}

fn parse_trailing(s: Parse, text: &[u64]) -> Parse
    ensures { result ≡ run trailing text.now s }
{
    s.accept_any_as(text, Shape::Base)
        .accept_as(text, T, Shape::Base)
}

fn parse_other(s: Parse, text: &[u64]) -> Parse
    ensures { result ≡ run other text.now s }
{
    if s.kind_is(text, RI) {
        s.accept_as(text, RI, Shape::Base)
    } else if is_extension(s, text) {
        s.set_broken(text)
    } else {
        s.set_space_from_char(text).accept_any_as(text, Shape::Base)
    }
}

fn is_extension(s: Parse, text: &[u64]) -> bool
    ensures { result ≡ holds text.now is_extension s }
{
    s.kind_in(text, [EX, SM, ZWJ])
}

fn parse_extensions(mut s: Parse, text: &[u64]) -> Parse
    ensures { result ≡ run (while is_extension extension) text.now s }
{
    while is_extension(s, text) {
        s = parse_extension(s, text);
    }
    s
}

fn parse_extension(s: Parse, text: &[u64]) -> Parse
    ensures { result ≡ run extension text.now s }
{
    if s.kind_is(text, EX) {
        parse_extend(s, text)
    } else if s.kind_is(text, SM) {
        parse_combining(s, text)
    } else {
        s.accept_any_as(text, Shape::Zwj)
    }
}

fn parse_extend(s: Parse, text: &[u64]) -> Parse
    ensures { result ≡ run extend text.now s }
{
    if s.scalar_is(text, ZWNJ) {
        s.accept_any_as(text, Shape::Zwnj)
    } else if s.selector(text) {
        s.accept_any_as(text, Shape::Vs)
    } else {
        parse_combining(s, text)
    }
}

fn parse_combining(s: Parse, text: &[u64]) -> Parse
    ensures { result ≡ run combining text.now s }
{
    s.force_normalize(text).accept_any_as(text, Shape::Mark)
}
