// The complex parser, src/text/cluster/complex.rs: its functions by their names, the longer ones in pieces. A call of `parse` makes
// one cluster; it is begun with `joins`, since U+034F is stepped over. `khmer` says whether the script is Khmer.
#![tactic(auto, unfolding(parse::specs::Rule::run, crate::specs::Grammar::base_vs, crate::specs::Grammar::symbol_marks, crate::specs::Grammar::consonant_marks, crate::specs::Grammar::is_coeng, crate::specs::Grammar::halant, crate::specs::Grammar::opens_halant, crate::specs::Grammar::halant_base, crate::specs::Grammar::is_vowel_modifier, crate::specs::Grammar::vowel_modifier, crate::specs::Grammar::medials, crate::specs::Grammar::vowels, crate::specs::Grammar::finals, crate::specs::Grammar::is_symbol_mark, crate::specs::Grammar::given, crate::specs::Grammar::halant_number, crate::specs::Grammar::by_kind))]

ghost use Rattle.std.specs.Prelude.{true, false, ◌≡◌};
ghost use Rattle.classes.specs.UseClass.{HN};
ghost use Rattle.parse.specs.Rule.{run, holds, while, is};
ghost use Rattle.complex.specs.Grammar.{to_shape_class, by_kind, base_vs, symbol_marks, consonant_marks, is_coeng, halant, opens_halant, halant_base, is_vowel_modifier, vowel_modifier, medials, vowels, finals, is_symbol_mark, standard_tail, standard, halant_number, letter, cluster};

use classes::use_class::{
    B, CMAbv, CMBlw, CS, FAbv, FBlw, FM, FPst, GB, H, HN, IND, MAbv, MBlw, MPre, MPst, N, O, R,
    Rsv, S, SMAbv, SMBlw, SUB, VAbv, VBlw, VMAbv, VMBlw, VMPre, VMPst, VPre, VPst, VS, WJ, ZWJ,
    ZWNJ,
};
use classes::{Shape, scalar};
use parse::Parse;

pub fn parse(mut s: Parse, text: &[u64], khmer: bool) -> Parse
    ensures { result ≡ run (cluster khmer) text.now s }
{
    if s.emoji(text) {
        s = s.parse_emoji(text);
    } else if s.kind_is(text, O) {
        s = s.parse_other(text);
    } else if s.kind_in(text, [IND, Rsv, WJ]) {
        s = accept_base(s, text);
    } else if s.kind_is(text, R) {
        s = s.accept_any_as(text, Shape::Reph);
        s = parse_standard(s, text, khmer, false);
    } else if s.kind_is(text, CS) {
        s = s.accept_any_as(text, Shape::Other);
        s = parse_standard(s, text, khmer, false);
    } else {
        s = parse_letter(s, text, khmer);
    }
    s
}

// The arms from `B | GB` on.
fn parse_letter(mut s: Parse, text: &[u64], khmer: bool) -> Parse
    ensures { result ≡ run (letter khmer) text.now s }
{
    if s.kind_is(text, B) {
        s = parse_standard(s, text, khmer, false);
    } else if s.kind_is(text, GB) {
        s = parse_standard(s, text, khmer, true);
    } else if s.kind_is(text, N) {
        s = accept_base(s, text);
        s = parse_halant_numbers(s, text);
    } else if s.kind_is(text, S) {
        s = accept_base(s, text);
        s = accept_symbol_marks(s, text);
    } else {
        s = parse_standard(s, text, khmer, false);
    }
    s
}

// A base and its variation selector.
fn accept_base(s: Parse, text: &[u64]) -> Parse
    ensures { result ≡ run base_vs text.now s }
{
    s.accept_any_as(text, Shape::Base)
        .accept_as(text, VS, Shape::Vs)
}

fn accept_symbol_marks(s: Parse, text: &[u64]) -> Parse
    ensures { result ≡ run symbol_marks text.now s }
{
    s.accept_zero_or_many(text, SMAbv)
        .accept_zero_or_many(text, SMBlw)
}

fn accept_consonant_marks(s: Parse, text: &[u64]) -> Parse
    ensures { result ≡ run consonant_marks text.now s }
{
    s.accept_zero_or_many(text, CMAbv)
        .accept_zero_or_many(text, CMBlw)
}

fn accept_by_kind(s: Parse, text: &[u64]) -> Parse
    ensures { result ≡ run by_kind text.now s }
{
    s.accept_any_as(text, to_shape_class(s.kind(text)))
}

fn parse_standard(mut s: Parse, text: &[u64], khmer: bool, symbol: bool) -> Parse
    ensures { result ≡ run (standard khmer symbol) text.now s }
{
    if s.kind_in(text, [B, GB]) {
        s = s.accept_any_as(text, Shape::Base);
        s = parse_standard_tail(s, text, khmer, symbol);
    } else {
        s = s.set_broken(text);
        s = accept_by_kind(s, text);
    }
    s
}

fn is_symbol_mark(s: Parse, text: &[u64], symbol: bool) -> bool
    ensures { result ≡ holds text.now (is_symbol_mark symbol) s }
{
    symbol && s.kind_in(text, [SMAbv, SMBlw])
}

fn parse_standard_tail(mut s: Parse, text: &[u64], khmer: bool, symbol: bool) -> Parse
    ensures { result ≡ run (standard_tail khmer symbol) text.now s }
{
    s = s.accept_as(text, VS, Shape::Vs);
    if is_symbol_mark(s, text, symbol) {
        s = accept_symbol_marks(s, text);
    } else {
        s = accept_consonant_marks(s, text);
        s = parse_halant_bases(s, text, khmer);
        s = accept_medials(s, text);
        s = accept_vowels(s, text);
        s = parse_vowel_modifiers(s, text);
        s = accept_finals(s, text);
    }
    s
}

fn accept_medials(mut s: Parse, text: &[u64]) -> Parse
    ensures { result ≡ run medials text.now s }
{
    s = s.accept(text, MPre);
    s = s.accept(text, MAbv);
    s = s.accept(text, MBlw);
    s = s.accept(text, MBlw);
    s = s.accept(text, MPst);
    s
}

fn accept_vowels(s: Parse, text: &[u64]) -> Parse
    ensures { result ≡ run vowels text.now s }
{
    s.accept_zero_or_many_as(text, VPre, Shape::VPre)
        .accept_zero_or_many(text, VAbv)
        .accept_zero_or_many(text, VBlw)
        .accept_zero_or_many(text, VPst)
}

fn accept_finals(s: Parse, text: &[u64]) -> Parse
    ensures { result ≡ run finals text.now s }
{
    s.accept_zero_or_many(text, FAbv)
        .accept_zero_or_many(text, FBlw)
        .accept_zero_or_many(text, FPst)
        .accept(text, FM)
}

fn is_vowel_modifier(s: Parse, text: &[u64]) -> bool
    ensures { result ≡ holds text.now is_vowel_modifier s }
{
    s.kind_in(text, [VMPre, VMAbv, VMBlw, VMPst, H])
}

fn parse_vowel_modifier(s: Parse, text: &[u64]) -> Parse
    ensures { result ≡ run vowel_modifier text.now s }
{
    if s.kind_is(text, VMPre) {
        s.accept_any_as(text, Shape::VMPre)
    } else {
        s.accept_any_as(text, Shape::Other)
    }
}

fn parse_vowel_modifiers(mut s: Parse, text: &[u64]) -> Parse
    ensures { result ≡ run (while is_vowel_modifier vowel_modifier) text.now s }
{
    while is_vowel_modifier(s, text) {
        s = parse_vowel_modifier(s, text);
    }
    s
}

fn is_coeng(s: Parse, text: &[u64], khmer: bool) -> bool
    ensures { result ≡ holds text.now (is_coeng khmer) s }
{
    khmer && s.scalar_is(text, scalar::COENG)
}

fn accept_halant(s: Parse, text: &[u64], khmer: bool) -> Parse
    ensures { result ≡ run (halant khmer) text.now s }
{
    if is_coeng(s, text, khmer) {
        s.accept_any_as(text, Shape::Other)
    } else {
        s.accept_any_as(text, Shape::Halant)
    }
}

fn opens_halant(s: Parse, text: &[u64]) -> bool
    ensures { result ≡ holds text.now opens_halant s }
{
    s.kind_in(text, [SUB, H])
}

fn parse_halant_base(mut s: Parse, text: &[u64], khmer: bool) -> Parse
    ensures { result ≡ run (halant_base khmer) text.now s }
{
    if s.kind_is(text, SUB) {
        s = s.accept_any_as(text, Shape::Other);
        s = accept_consonant_marks(s, text);
    } else {
        s = accept_halant(s, text, khmer);
        if s.kind_is(text, B) {
            s = accept_base(s, text);
            s = accept_consonant_marks(s, text);
        } else {
            s = s.stop(text);
        }
    }
    s
}

fn parse_halant_bases(mut s: Parse, text: &[u64], khmer: bool) -> Parse
    ensures { result ≡ run (while opens_halant (halant_base khmer)) text.now s }
{
    while opens_halant(s, text) {
        s = parse_halant_base(s, text, khmer);
    }
    s
}

fn parse_halant_number(mut s: Parse, text: &[u64]) -> Parse
    ensures { result ≡ run halant_number text.now s }
{
    s = s.accept_any_as(text, Shape::Halant);
    if s.kind_is(text, N) {
        s = accept_base(s, text);
    } else {
        s = s.stop(text);
    }
    s
}

fn parse_halant_numbers(mut s: Parse, text: &[u64]) -> Parse
    ensures { result ≡ run (while (is HN) halant_number) text.now s }
{
    while s.kind_is(text, HN) {
        s = parse_halant_number(s, text);
    }
    s
}

fn to_shape_class(kind: u8) -> Shape
    ensures { result ≡ to_shape_class kind }
{
    match kind {
        B => Shape::Base,
        H => Shape::Halant,
        VPre => Shape::VPre,
        VMPre => Shape::VMPre,
        VBlw => Shape::VBlw,
        R => Shape::Reph,
        ZWNJ => Shape::Zwnj,
        ZWJ => Shape::Zwj,
        _ => Shape::Other,
    }
}
