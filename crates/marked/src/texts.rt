// The text of a case as lent columns, and one stepping call on it.
use classes::{category, cluster_break, myanmar_class, use_class, word_break};
use records::cells::first;
use records::{Columns, Parser};
use segment::{Answer, Segmenter};

// What a case says of a record: its scalar, its class for the parser of the case, whether it is an emoji, its count of parts.
#[derive(Clone, Copy)]
pub(crate) struct Character {
    pub scalar: u32,
    pub class: u8,
    pub emoji: u8,
    pub count: u8,
}

pub(crate) fn of_class(scalar: u32, class: u8) -> Character {
    Character {
        scalar,
        class,
        emoji: 0,
        count: 0,
    }
}

// Records of a case, at most 32. `part` is the one part of the text, lent where a record has parts.
#[derive(Clone, Copy)]
pub(crate) struct Text {
    pub parser: Parser,
    pub records: [Character; 32],
    pub len: usize,
    pub part: Character,
}

impl Text {
    // A column of classes: the parser's own, or the class that no rule names.
    fn classes(&self, is_own: bool, rest: u8) -> [u8; 32] {
        if is_own {
            self.records.map(|c| c.class)
        } else {
            [rest; 32]
        }
    }
}

pub(crate) fn next(s: Segmenter, t: &Text) -> Answer {
    let n = t.len;
    let m = usize::from(t.part.count);
    let simple = matches!(t.parser, Parser::Simple);
    let myanmar = matches!(t.parser, Parser::Myanmar);
    let complex = matches!(t.parser, Parser::Complex | Parser::Khmer);
    let unmarked = first(&[0; 32], n);
    s.next(&Columns {
        scalars: first(&t.records.map(|c| c.scalar), n),
        breaks: first(&t.classes(simple, cluster_break::XX), n),
        uses: first(&t.classes(complex, use_class::REST), n),
        myanmars: first(&t.classes(myanmar, myanmar_class::REST), n),
        categories: first(&[category::Other; 32], n),
        words: first(&[word_break::Other; 32], n),
        semojis: first(&t.records.map(|c| c.emoji), n),
        memojis: unmarked,
        cemojis: unmarked,
        pictographs: unmarked,
        selectors: unmarked,
        decomposes: unmarked,
        firsts: first(&[0; 32], n),
        counts: first(&t.records.map(|c| c.count), n),
        pscalars: first(&[t.part.scalar], m),
        pbreaks: first(&[cluster_break::XX], m),
        puses: first(&[t.part.class], m),
        pcategories: first(&[category::Other], m),
    })
}
