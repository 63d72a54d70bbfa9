// WB1 to WB999 of UAX #29 in one pass over two lent columns, the word classes and the marks read as Extended_Pictographic.
#![tactic(auto)]

ghost use Rattle.std.specs.Prelude.{◌≡◌, ◌&&◌, not, ◌+◌, ◌-◌, eqb, length};
ghost use Rattle.basics.specs.Sets.{member};
ghost use Rattle.classes.specs.WordBreak as WordBreak;
ghost use Rattle.uax29.specs.Words.{AHLetter, newlines, ignored, mid_letters, mid_numbers, extendable, extended, boundary_cells};
ghost use Rattle.uax29.specs.WordsSeen.{around, after_WB4, after_WB7c, from_WB3c, decided, has_x, holds};
ghost use Rattle.uax29.specs.WordsSeen as WordsSeen;

use classes::word_break::*;
use records::cells::cell;

// What the rules see of the characters before a place: the class of the last, and, of those that WB4 leaves, the classes of the last two
// (Other, a class that no rule names, stands for none) and whether they end with an odd number of RI.
#[derive(Clone, Copy)]
pub struct Seen {
    pub last: Option<u8>,
    pub near: u8,
    pub far: u8,
    pub odd: bool,
}

// What the rules from WB5 on see of the characters on the two sides of a place: the classes of two before it and of two from it on, and
// whether an odd number of RI ends before it.
#[derive(Clone, Copy)]
struct Around {
    far: u8,
    near: u8,
    b: u8,
    next: u8,
    odd: bool,
}

// The sets of classes that the rules name, and a set of one class.
#[derive(Clone, Copy, Debug, PartialEq, Eq)]
pub enum Set {
    Only(u8),
    Newlines,
    Ignored,
    Letters,
    MidLetters,
    MidNumbers,
    Extendable,
    Extended,
}

impl Set {
    // Whether the class is of the set.
    pub fn has(self, class: u8) -> bool
        ensures { result ≡ holds self class }
    {
        match self {
            Set::Only(only) => class == only,
            Set::Newlines => is_newline(class),
            Set::Ignored => is_ignored(class),
            Set::Letters => is_letter(class),
            Set::MidLetters => is_mid_letter(class),
            Set::MidNumbers => is_mid_number(class),
            Set::Extendable => is_extendable(class),
            Set::Extended => is_extended(class),
        }
    }
}

fn is_newline(class: u8) -> bool
    ensures { result ≡ member newlines class }
{
    matches!(class, NL | CR | LF)
}

fn is_ignored(class: u8) -> bool
    ensures { result ≡ member ignored class }
{
    matches!(class, Extend | FO | ZWJ)
}

fn is_letter(class: u8) -> bool
    ensures { result ≡ member AHLetter class }
{
    matches!(class, ALetter | HL)
}

fn is_mid_letter(class: u8) -> bool
    ensures { result ≡ member mid_letters class }
{
    matches!(class, ML | MidNumLet | SQ)
}

fn is_mid_number(class: u8) -> bool
    ensures { result ≡ member mid_numbers class }
{
    matches!(class, MN | MidNumLet | SQ)
}

fn is_extendable(class: u8) -> bool
    ensures { result ≡ member extendable class }
{
    matches!(class, KA | NU | ALetter | HL)
}

fn is_extended(class: u8) -> bool
    ensures { result ≡ member extended class }
{
    matches!(class, EX | KA | NU | ALetter | HL)
}

// WB5 to WB16: a function for each rule, which says whether the rule applies.
impl Around {
    fn wb5(self) -> bool
        ensures { result ≡ (member AHLetter self.near && member AHLetter self.b) }
    {
        is_letter(self.near) && is_letter(self.b)
    }

    fn wb6(self) -> bool
        ensures { result ≡ (member AHLetter self.near && (member mid_letters self.b && member AHLetter self.next)) }
    {
        is_letter(self.near) && is_mid_letter(self.b) && is_letter(self.next)
    }

    fn wb7(self) -> bool
        ensures { result ≡ ((member mid_letters self.near && member AHLetter self.far) && member AHLetter self.b) }
    {
        is_mid_letter(self.near) && is_letter(self.far) && is_letter(self.b)
    }

    fn wb7a(self) -> bool
        ensures { result ≡ (eqb self.near WordBreak.HL && eqb self.b WordBreak.SQ) }
    {
        self.near == HL && self.b == SQ
    }

    fn wb7b(self) -> bool
        ensures { result ≡ (eqb self.near WordBreak.HL && (eqb self.b WordBreak.DQ && eqb self.next WordBreak.HL)) }
    {
        self.near == HL && self.b == DQ && self.next == HL
    }

    fn wb7c(self) -> bool
        ensures { result ≡ ((eqb self.near WordBreak.DQ && eqb self.far WordBreak.HL) && eqb self.b WordBreak.HL) }
    {
        self.near == DQ && self.far == HL && self.b == HL
    }

    fn wb8(self) -> bool
        ensures { result ≡ (eqb self.near WordBreak.NU && eqb self.b WordBreak.NU) }
    {
        self.near == NU && self.b == NU
    }

    fn wb9(self) -> bool
        ensures { result ≡ (member AHLetter self.near && eqb self.b WordBreak.NU) }
    {
        is_letter(self.near) && self.b == NU
    }

    fn wb10(self) -> bool
        ensures { result ≡ (eqb self.near WordBreak.NU && member AHLetter self.b) }
    {
        self.near == NU && is_letter(self.b)
    }

    fn wb11(self) -> bool
        ensures { result ≡ ((member mid_numbers self.near && eqb self.far WordBreak.NU) && eqb self.b WordBreak.NU) }
    {
        is_mid_number(self.near) && self.far == NU && self.b == NU
    }

    fn wb12(self) -> bool
        ensures { result ≡ (eqb self.near WordBreak.NU && (member mid_numbers self.b && eqb self.next WordBreak.NU)) }
    {
        self.near == NU && is_mid_number(self.b) && self.next == NU
    }

    fn wb13(self) -> bool
        ensures { result ≡ (eqb self.near WordBreak.KA && eqb self.b WordBreak.KA) }
    {
        self.near == KA && self.b == KA
    }

    fn wb13a(self) -> bool
        ensures { result ≡ (member extended self.near && eqb self.b WordBreak.EX) }
    {
        is_extended(self.near) && self.b == EX
    }

    fn wb13b(self) -> bool
        ensures { result ≡ (eqb self.near WordBreak.EX && member extendable self.b) }
    {
        self.near == EX && is_extendable(self.b)
    }

    // WB15, WB16
    fn wb15(self) -> bool
        ensures { result ≡ (eqb self.b WordBreak.RI && self.odd) }
    {
        self.b == RI && self.odd
    }

    // Whether one of them does: no boundary is here.
    #[tactic(auto, unfolding(crate::specs::WordsSeen::from_WB5, crate::specs::WordsSeen::from_WB7a))]
    fn is_joined(self) -> bool
        ensures { result ≡ not (after_WB4 self) }
    {
        self.wb5()
            || self.wb6()
            || self.wb7()
            || self.wb7a()
            || self.wb7b()
            || self.wb7c()
            || self.is_joined_from_wb8()
    }

    #[tactic(auto, unfolding(crate::specs::WordsSeen::from_WB8, crate::specs::WordsSeen::from_WB13, crate::specs::WordsSeen::from_WB15))]
    fn is_joined_from_wb8(self) -> bool
        ensures { result ≡ not (after_WB7c self) }
    {
        self.wb8()
            || self.wb9()
            || self.wb10()
            || self.wb11()
            || self.wb12()
            || self.wb13()
            || self.wb13a()
            || self.wb13b()
            || self.wb15()
    }
}

// WB3
fn is_crlf(last: u8, b: u8) -> bool
    ensures { result ≡ (eqb last WordBreak.CR && eqb b WordBreak.LF) }
{
    last == CR && b == LF
}

// WB3c to WB16: whether one of them says that no boundary is here.
#[tactic(auto, unfolding(crate::specs::WordsSeen::from_WB3c))]
fn is_joined(last: u8, mark: u8, around: Around) -> bool
    ensures { result ≡ not (from_WB3c last around.b mark (after_WB4 around)) }
{
    last == ZWJ && mark == 1
        || last == WSegSpace && around.b == WSegSpace
        || is_ignored(around.b)
        || around.is_joined()
}

impl Seen {
    const NOTHING: Seen = Seen {
        last: None,
        near: Other,
        far: Other,
        odd: false,
    };

    // WB4 leaves these of the characters before a place, and class b, with the next that it leaves, from the place on.
    fn around(self, b: u8, next: u8) -> Around
        ensures { result ≡ around self b next }
    {
        Around {
            far: self.far,
            near: self.near,
            b,
            next,
            odd: self.odd,
        }
    }

    #[tactic(auto, unfolding(crate::specs::WordsSeen::decided, crate::specs::WordsSeen::from_WB1, crate::specs::WordsSeen::from_WB3))]
    fn is_boundary(self, b: u8, mark: u8, next: u8) -> bool
        ensures { result ≡ decided self b mark next }
    {
        // WB1
        let Some(last) = self.last else {
            return true;
        };
        // WB3
        if is_crlf(last, b) {
            return false;
        }
        // WB3a, WB3b
        is_newline(last) || is_newline(b) || !is_joined(last, mark, self.around(b, next))
    }

    #[tactic(auto, unfolding(crate::specs::WordsSeen::has_x))]
    fn has_x(self) -> bool
        ensures { result ≡ has_x self }
    {
        self.last.is_some_and(|last| !is_newline(last))
    }

    // WB4 passes over the class, or it is one more that WB4 leaves.
    #[tactic(auto, unfolding(crate::specs::WordsSeen::after))]
    fn after(self, class: u8) -> Seen
        ensures { result ≡ WordsSeen.after self class }
    {
        if is_ignored(class) && self.has_x() {
            return Seen {
                last: Some(class),
                ..self
            };
        }
        Seen {
            last: Some(class),
            near: class,
            far: self.near,
            odd: class == RI && !self.odd,
        }
    }
}

// The class of the first record from an index on that WB4 leaves.
fn ahead(words: &[u8], at: usize) -> u8
    ensures { result ≡ WordsSeen.ahead words.now at (length words.now - at) }
{
    for i in at..words.len() {
        if !is_ignored(words[i]) {
            return words[i];
        }
    }
    Other
}

// 1 for each record that a word boundary stands before and 0 for any other, for as many records as there are cells.
pub fn boundaries(words: &[u8], pictographs: &[u8], out: &mut [u8])
    ensures { out.new ≡ boundary_cells words.now pictographs.now out.old }
{
    let mut seen = Seen::NOTHING;
    for i in 0..words.len().min(out.len()) {
        let class = words[i];
        let mark = cell(pictographs, i, 0);
        out[i] = u8::from(seen.is_boundary(class, mark, ahead(words, i + 1)));
        seen = seen.after(class);
    }
}
