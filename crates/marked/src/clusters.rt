// P01 to P13: the texts of SCOPE 9.1 and what it tells of them.
use crate::calls::{Call, answers};
use crate::texts::{Character, Text, of_class};
use classes::{Mode, Shape, cluster_break, myanmar_class, scalar, use_class};
use parse::{Cluster, Emoji, Info, Pushed, Space};
use records::Parser;

const NO_CHARACTER: Character = Character {
    scalar: 0,
    class: 0,
    emoji: 0,
    count: 0,
};

const NO_INFO: Info = Info {
    emoji: Emoji::None,
    space: Space::None,
    broken: false,
    normalise: false,
};

fn newline() -> Info {
    Info {
        space: Space::Newline,
        ..NO_INFO
    }
}

fn broken() -> Info {
    Info {
        broken: true,
        ..NO_INFO
    }
}

// U+0301, a mark that may compose
const ACUTE: u32 = 0x301;

// A text of records, and of later ones that are all the same, so many in all.
fn longer(parser: Parser, len: usize, records: &[Character], later: Character) -> Text {
    let mut all = [later; 32];
    for (to, &c) in all.iter_mut().zip(records) {
        *to = c;
    }
    Text {
        parser,
        records: all,
        len,
        part: NO_CHARACTER,
    }
}

fn text(parser: Parser, records: &[Character]) -> Text {
    longer(parser, records.len(), records, NO_CHARACTER)
}

fn character(scalar: u32, class: Shape, index: u16) -> Pushed {
    Pushed {
        scalar,
        index,
        noted: 0,
        class,
    }
}

// A call that pushes the characters.
fn call(chars: &[Pushed], info: Info, next: usize) -> Call {
    let mut cluster = Cluster {
        len: chars.len(),
        info,
        ..Cluster::EMPTY
    };
    for (to, &c) in cluster.chars.iter_mut().zip(chars) {
        *to = c;
    }
    Call { cluster, next }
}

// A call that pushes the characters and then `later` of one record after the other, so many in all.
fn longer_call(len: usize, chars: &[Pushed], later: Pushed, info: Info, next: usize) -> Call {
    let mut told = call(chars, info, next);
    let mut c = later;
    for to in told.cluster.chars.iter_mut().take(len).skip(chars.len()) {
        *to = c;
        c.index = c.index.wrapping_add(1);
    }
    told.cluster.len = len;
    told
}

// P01 simple, empty: the end, at once
pub(crate) fn p01(mode: Mode) -> bool {
    answers(&text(Parser::Simple, &[]), mode, &[])
}

// P02 simple, CR LF: Control Control; newline
pub(crate) fn p02(mode: Mode) -> bool {
    let t = text(
        Parser::Simple,
        &[
            of_class(scalar::CR, cluster_break::CR),
            of_class(scalar::LF, cluster_break::LF),
        ],
    );
    let a = character(scalar::CR, Shape::Control, 0);
    let b = character(scalar::LF, Shape::Control, 1);
    answers(&t, mode, &[call(&[a, b], newline(), 2)])
}

// P03 simple, LF U+0301: Control Mark; newline, normalising forced
pub(crate) fn p03(mode: Mode) -> bool {
    let t = text(
        Parser::Simple,
        &[
            of_class(scalar::LF, cluster_break::LF),
            of_class(ACUTE, cluster_break::EX),
        ],
    );
    let a = character(scalar::LF, Shape::Control, 0);
    let b = character(ACUTE, Shape::Mark, 1);
    let info = Info {
        normalise: true,
        ..newline()
    };
    answers(&t, mode, &[call(&[a, b], info, 2)])
}

// P04 simple, RI RI: Base, then Base
pub(crate) fn p04(mode: Mode) -> bool {
    let t = text(
        Parser::Simple,
        &[
            of_class(0x1F1E6, cluster_break::RI),
            of_class(0x1F1E7, cluster_break::RI),
        ],
    );
    let a = character(0x1F1E6, Shape::Base, 0);
    let b = character(0x1F1E7, Shape::Base, 1);
    answers(&t, mode, &[call(&[a], NO_INFO, 1), call(&[b], NO_INFO, 2)])
}

// P05 simple, L V T: Base Base, then Base
pub(crate) fn p05(mode: Mode) -> bool {
    let t = text(
        Parser::Simple,
        &[
            of_class(0x1100, cluster_break::L),
            of_class(0x1161, cluster_break::V),
            of_class(0x11A8, cluster_break::T),
        ],
    );
    let a = character(0x1100, Shape::Base, 0);
    let b = character(0x1161, Shape::Base, 1);
    let c = character(0x11A8, Shape::Base, 2);
    answers(
        &t,
        mode,
        &[call(&[a, b], NO_INFO, 2), call(&[c], NO_INFO, 3)],
    )
}

fn emoji(scalar: u32) -> Character {
    Character {
        emoji: 1,
        ..of_class(scalar, cluster_break::XX)
    }
}

// P06 simple, emoji U+FE0F (EX) ZWJ emoji: Base with one noted, Zwj, Base; Color
pub(crate) fn p06(mode: Mode) -> bool {
    let t = text(
        Parser::Simple,
        &[
            emoji(0x1F468),
            of_class(scalar::VS16, cluster_break::EX),
            of_class(scalar::ZWJ, cluster_break::ZWJ),
            emoji(0x1F33E),
        ],
    );
    let a = Pushed {
        noted: 1,
        ..character(0x1F468, Shape::Base, 0)
    };
    let b = character(scalar::ZWJ, Shape::Zwj, 2);
    let c = character(0x1F33E, Shape::Base, 3);
    let info = Info {
        emoji: Emoji::Color,
        ..NO_INFO
    };
    answers(&t, mode, &[call(&[a, b, c], info, 4)])
}

// XX and some U+0301
fn accented(len: usize) -> Text {
    longer(
        Parser::Simple,
        len,
        &[of_class(0x61, cluster_break::XX)],
        of_class(ACUTE, cluster_break::EX),
    )
}

fn accented_call(len: usize, next: usize) -> Call {
    let info = Info {
        space: Space::From(0x61),
        normalise: true,
        ..NO_INFO
    };
    longer_call(
        len,
        &[character(0x61, Shape::Base, 0)],
        character(ACUTE, Shape::Mark, 1),
        info,
        next,
    )
}

// P07 simple, XX 30 × U+0301: one cluster, 31 characters
pub(crate) fn p07(mode: Mode) -> bool {
    answers(&accented(31), mode, &[accented_call(31, 31)])
}

// P08 simple, XX 31 × U+0301: crate 32 characters, then Mark, broken; whole 32 characters
pub(crate) fn p08(mode: Mode) -> bool {
    let repeated = character(ACUTE, Shape::Mark, 31);
    let info = Info {
        normalise: true,
        ..broken()
    };
    let t = accented(32);
    match mode {
        Mode::Crate => answers(
            &t,
            mode,
            &[accented_call(32, 31), call(&[repeated], info, 32)],
        ),
        Mode::Whole => answers(&t, mode, &[accented_call(32, 32)]),
    }
}

// The story's label, U+1004 U+103A U+1039, and more records
fn label(len: usize, later: Character) -> Text {
    let records = [
        of_class(scalar::NGA, myanmar_class::C),
        of_class(scalar::ASAT, myanmar_class::As),
        of_class(scalar::VIRAMA, myanmar_class::H),
    ];
    longer(Parser::Myanmar, len, &records, later)
}

fn kinzi(len: usize, later: Pushed, info: Info, next: usize) -> Call {
    let chars = [
        character(scalar::NGA, Shape::Kinzi, 0),
        character(scalar::ASAT, Shape::Kinzi, 1),
        character(scalar::VIRAMA, Shape::Kinzi, 2),
    ];
    longer_call(len, &chars, later, info, next)
}

// P09 Myanmar, U+1004 (C) U+103A (As) U+1039 (H): crate Kinzi Kinzi Kinzi Other, broken; whole Kinzi Kinzi Kinzi
pub(crate) fn p09(mode: Mode) -> bool {
    let repeated = character(scalar::VIRAMA, Shape::Other, 2);
    let told = match mode {
        Mode::Crate => kinzi(4, repeated, broken(), 3),
        Mode::Whole => kinzi(3, repeated, NO_INFO, 3),
    };
    answers(&label(3, NO_CHARACTER), mode, &[told])
}

// P10 Myanmar, P09, then U+1000 (C): Kinzi Kinzi Kinzi Base
pub(crate) fn p10(mode: Mode) -> bool {
    let base = character(0x1000, Shape::Base, 3);
    answers(
        &label(4, of_class(0x1000, myanmar_class::C)),
        mode,
        &[kinzi(4, base, NO_INFO, 4)],
    )
}

// P11 Myanmar, P09, then 29 × U+034F (rest): crate 32 characters, then Other, broken; whole 32 characters
pub(crate) fn p11(mode: Mode) -> bool {
    let t = label(32, of_class(scalar::CGJ, myanmar_class::REST));
    let joiner = character(scalar::CGJ, Shape::Other, 3);
    let repeated = character(scalar::CGJ, Shape::Other, 31);
    match mode {
        Mode::Crate => answers(
            &t,
            mode,
            &[
                kinzi(32, joiner, NO_INFO, 31),
                call(&[repeated], broken(), 32),
            ],
        ),
        Mode::Whole => answers(&t, mode, &[kinzi(32, joiner, NO_INFO, 32)]),
    }
}

// One part, or a record with one part
fn part(scalar: u32, class: u8) -> Character {
    Character {
        count: 1,
        ..of_class(scalar, class)
    }
}

// P12 Khmer, U+1780 (B) U+17BE (VAbv), its part U+17C1 (VPre): Base VPre Other
pub(crate) fn p12(mode: Mode) -> bool {
    let records = [
        of_class(0x1780, use_class::B),
        part(scalar::KHMER_OE, use_class::VAbv),
    ];
    let t = Text {
        part: part(scalar::KHMER_E, use_class::VPre),
        ..text(Parser::Khmer, &records)
    };
    let a = character(0x1780, Shape::Base, 0);
    let b = character(scalar::KHMER_E, Shape::VPre, 1);
    let c = character(scalar::KHMER_OE, Shape::Other, 1);
    answers(&t, mode, &[call(&[a, b, c], NO_INFO, 3)])
}

// P13 complex, CR U+034F LF, all of class O: Control Other Control; newline
pub(crate) fn p13(mode: Mode) -> bool {
    let t = text(
        Parser::Complex,
        &[
            of_class(scalar::CR, use_class::O),
            of_class(scalar::CGJ, use_class::O),
            of_class(scalar::LF, use_class::O),
        ],
    );
    let a = character(scalar::CR, Shape::Control, 0);
    let b = character(scalar::CGJ, Shape::Other, 1);
    let c = character(scalar::LF, Shape::Control, 2);
    answers(&t, mode, &[call(&[a, b, c], newline(), 3)])
}
