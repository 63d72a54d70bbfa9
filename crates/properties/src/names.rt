// The value names of both files with their codes.
ghost use Rattle.std.specs.Prelude.{◌≡◌};
ghost use Rattle.properties.specs.Names.{cluster_names, word_names, old_names, names_of, among, code_of};
ghost use Rattle.properties.specs.Inner.{rows};

use crate::File;
use cases::{next_of, span_at};
use classes::{cluster_break, word_break};

// The code of a name among names with one blank between.
fn find(names: &[u8], codes: &[u8], value: &[u8]) -> Option<u8>
    ensures { result ≡ among (rows names.now codes.now) value.now }
{
    let mut at: usize = 0;
    for &code in codes {
        if span_at(names, at, b' ') == value {
            return Some(code);
        }
        at = next_of(names, at, b' ');
    }
    None
}

// In the order of the names, and so for words.
const CLUSTER_CODES: [u8; 14] = [
    cluster_break::XX,
    cluster_break::CN,
    cluster_break::CR,
    cluster_break::LF,
    cluster_break::L,
    cluster_break::V,
    cluster_break::T,
    cluster_break::LV,
    cluster_break::LVT,
    cluster_break::RI,
    cluster_break::EX,
    cluster_break::SM,
    cluster_break::ZWJ,
    cluster_break::PP,
];

fn cluster_code(value: &[u8]) -> Option<u8>
    ensures { result ≡ among cluster_names value.now }
{
    find(
        b"Other Control CR LF L V T LV LVT Regional_Indicator Extend SpacingMark ZWJ Prepend",
        &CLUSTER_CODES,
        value,
    )
}

const WORD_CODES: [u8; 19] = [
    word_break::Other,
    word_break::CR,
    word_break::LF,
    word_break::NL,
    word_break::Extend,
    word_break::ZWJ,
    word_break::FO,
    word_break::WSegSpace,
    word_break::ALetter,
    word_break::HL,
    word_break::ML,
    word_break::MidNumLet,
    word_break::MN,
    word_break::NU,
    word_break::SQ,
    word_break::DQ,
    word_break::KA,
    word_break::EX,
    word_break::RI,
];

fn word_code(value: &[u8]) -> Option<u8>
    ensures { result ≡ among word_names value.now }
{
    find(
        b"Other CR LF Newline Extend ZWJ Format WSegSpace ALetter Hebrew_Letter MidLetter MidNumLet MidNum Numeric Single_Quote Double_Quote Katakana ExtendNumLet Regional_Indicator",
        &WORD_CODES,
        value,
    )
}

fn file_code(file: File, value: &[u8]) -> Option<u8>
    ensures { result ≡ among (names_of file) value.now }
{
    match file {
        File::Cluster => cluster_code(value),
        File::Word => word_code(value),
    }
}

// Of Unicode 9 and 10, in both files.
fn old_code(value: &[u8]) -> Option<u8>
    ensures { result ≡ among old_names value.now }
{
    find(
        b"E_Base E_Modifier Glue_After_Zwj E_Base_GAZ",
        &[0, 0, 0, 0],
        value,
    )
}

// What a value stands for in a file.
#[tactic(auto, unfolding(crate::specs::Names::code_of))]
pub fn code_of(file: File, value: &[u8]) -> Option<u8>
    ensures { result ≡ code_of file value.now }
{
    file_code(file, value).or_else(|| old_code(value))
}
