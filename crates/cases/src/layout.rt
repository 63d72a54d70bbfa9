// The lines: what each asks for, in the order of oracle/README.md.
#![tactic(auto, unfolding(crate::specs::Lines::skipped, crate::specs::Lines::plain_asked, crate::specs::Lines::full_asked, crate::specs::Lines::khmer_asked, crate::specs::Lines::asked_of, crate::specs::Lines::mode_of, crate::specs::Lines::text_line, crate::specs::Lines::machine_of, crate::specs::Lines::run_line, crate::specs::Lines::state_of, crate::specs::Lines::ahead_of, crate::specs::Lines::step_line, crate::specs::Lines::previous_of, crate::specs::Lines::line_state_of, crate::specs::Lines::line_step, crate::specs::Lines::boundary_step, crate::specs::Lines::boundaries, crate::specs::Lines::task_of, crate::specs::Lines::strength_of, crate::specs::Lines::own_of, crate::specs::Lines::lent_line, crate::specs::Lines::kind_line, crate::specs::Lines::line_of), using(crate::proofs::Splits::equal_told))]

ghost use Rattle.std.specs.Prelude.{◌≡◌};
ghost use Rattle.cases.specs.Lines as Lines;
ghost use Rattle.cases.specs.Lines.{skipped, asked_of, mode_of, text_line, machine_of, run_line, state_of, ahead_of, step_line, previous_of, line_state_of, line_step, boundary_step, task_of, strength_of, own_of, lent_line, kind_line, line_of};

use crate::columns::field8;
use crate::files::files_line;
use crate::items::{Kind, count_items, fits, is_item};
use crate::numbers::{Base, MOST16, read_number};
use crate::spans::{count, letter, span};
use classes::Mode;
use lines::{LineState, Strength};
use records::Parser;
use records::cells::cell;
use words::WordState;

#[derive(Clone, Copy)]
pub enum Line {
    Skipped,
    NotOfLayout,
    // The columns are read by `column8`, `column16` and `column32` from parts 4 and 5 of the line.
    Text {
        parser: Parser,
        mode: Mode,
        // A full run into so many cells, or stepping calls from a place on.
        full: bool,
        number: u32,
        records: u32,
        parts: u32,
    },
    // A run over classes and marks. The columns are in span 2 of the line.
    Marked {
        machine: Machine,
        cells: u32,
        records: u32,
    },
    Step {
        state: WordState,
        class: u8,
        pictograph: u8,
        next: Option<u8>,
    },
    // What is asked over a table: the crate's own, or one that `lay_table` lays from part 2 of the line.
    Lent {
        strength: Strength,
        own: bool,
        task: Task,
    },
    // The cells of the sets of cluster breaks and of words; the blocks are items of part 2 of the line, whose bytes `bytes` reads; the
    // cells of the looked up columns; the scalars are read by `column32` from part 4.
    Files {
        clusters: u16,
        words: u16,
        blocks: u32,
        cells: u32,
        scalars: u32,
    },
}

// Who answers for classes and marks: the word machine, or an engine of UAX #29's clusters, which looks back or goes forward.
#[derive(Clone, Copy)]
pub enum Machine {
    Words,
    Back,
    Forward,
}

#[derive(Clone, Copy)]
pub enum Task {
    LineStep {
        state: LineState,
        class: u8,
    },
    BoundaryStep {
        line_state: LineState,
        word_state: WordState,
        line: u8,
        word: u8,
        pictograph: u8,
        next: Option<u8>,
    },
    // The columns are read by `column8` from part 4 of the line.
    Boundaries {
        cells: u32,
        records: u32,
    },
}

// Whom a kind and a script name: a parser, and whether it makes a full run.
#[derive(Clone, Copy)]
struct Asked {
    parser: Parser,
    full: bool,
}

fn is_skipped(line: &[u8]) -> bool
    ensures { result ≡ skipped line.now }
{
    count(line, b' ') == line.len() || cell(line, 0, 0) == b'#'
}

fn asked_of(kind: u8, script: u8) -> Option<Asked>
    ensures { result ≡ asked_of kind script }
{
    let (parser, full) = match (script, kind) {
        (b'-', b'S') => (Parser::Simple, false),
        (b'-', b'M') => (Parser::Myanmar, false),
        (b'-', b'C') => (Parser::Complex, false),
        (b'-', b's') => (Parser::Simple, true),
        (b'-', b'm') => (Parser::Myanmar, true),
        (b'-', b'c') => (Parser::Complex, true),
        (b'K', b'C') => (Parser::Khmer, false),
        (b'K', b'c') => (Parser::Khmer, true),
        _ => return None,
    };
    Some(Asked { parser, full })
}

fn mode_of(name: &[u8]) -> Option<Mode>
    ensures { result ≡ mode_of name.now }
{
    if name == b"crate".as_slice() {
        Some(Mode::Crate)
    } else if name == b"whole".as_slice() {
        Some(Mode::Whole)
    } else {
        None
    }
}

fn text_line(line: &[u8], kind: u8) -> Option<Line>
    ensures { result ≡ text_line kind line.now }
{
    let Asked { parser, full } = asked_of(kind, letter(span(line, b';', 2)))?;
    Some(Line::Text {
        parser,
        mode: mode_of(span(line, b';', 1))?,
        full,
        number: read_number(span(line, b';', 3), Base::Decimal, MOST16)?,
        records: count_items(span(line, b';', 4), Kind::Record)?,
        parts: count_items(span(line, b';', 5), Kind::Part)?,
    })
}

fn run_line(line: &[u8], kind: u8) -> Option<Line>
    ensures { result ≡ run_line kind line.now }
{
    Some(Line::Marked {
        machine: machine_of(kind)?,
        cells: read_number(span(line, b';', 1), Base::Decimal, MOST16)?,
        records: count_items(span(line, b';', 2), Kind::Word)?,
    })
}

fn machine_of(kind: u8) -> Option<Machine>
    ensures { result ≡ machine_of kind }
{
    match kind {
        b'W' => Some(Machine::Words),
        b'G' => Some(Machine::Back),
        b'g' => Some(Machine::Forward),
        _ => None,
    }
}

fn state_of(item: &[u8]) -> WordState
    ensures { result ≡ state_of item.now }
{
    WordState {
        first: field8(item, 0) == 1,
        previous: field8(item, 1),
        prevent: field8(item, 2) == 1,
        count: field8(item, 3),
    }
}

fn ahead_of(item: &[u8]) -> Option<u8>
    ensures { result ≡ ahead_of item.now }
{
    if letter(item) == b'-' {
        None
    } else {
        Some(field8(item, 0))
    }
}

fn step_line(line: &[u8]) -> Option<Line>
    ensures { result ≡ step_line line.now }
{
    let state = span(line, b';', 1);
    let word = span(line, b';', 2);
    let next = span(line, b';', 3);
    if !is_item(state, Kind::State) || !is_item(word, Kind::Word) || !is_item(next, Kind::Ahead) {
        return None;
    }
    Some(Line::Step {
        state: state_of(state),
        class: field8(word, 0),
        pictograph: field8(word, 1),
        next: ahead_of(next),
    })
}

fn previous_of(item: &[u8]) -> Option<u8>
    ensures { result ≡ previous_of item.now }
{
    if letter(span(item, b',', 1)) == b'-' {
        None
    } else {
        Some(field8(item, 1))
    }
}

fn line_state_of(item: &[u8]) -> LineState
    ensures { result ≡ line_state_of item.now }
{
    LineState {
        row: field8(item, 0),
        previous: previous_of(item),
    }
}

fn line_step(line: &[u8]) -> Option<Task>
    ensures { result ≡ line_step line.now }
{
    let state = span(line, b';', 3);
    let class = span(line, b';', 4);
    if !is_item(state, Kind::Row) || !fits(class, Base::Decimal, 255) {
        return None;
    }
    Some(Task::LineStep {
        state: line_state_of(state),
        class: field8(class, 0),
    })
}

fn boundary_step(line: &[u8]) -> Option<Task>
    ensures { result ≡ boundary_step line.now }
{
    let line_state = span(line, b';', 3);
    let word_state = span(line, b';', 4);
    let joint = span(line, b';', 5);
    let next = span(line, b';', 6);
    if !is_item(line_state, Kind::Row)
        || !is_item(word_state, Kind::State)
        || !is_item(joint, Kind::Joint)
        || !is_item(next, Kind::Ahead)
    {
        return None;
    }
    Some(Task::BoundaryStep {
        line_state: line_state_of(line_state),
        word_state: state_of(word_state),
        line: field8(joint, 0),
        word: field8(joint, 1),
        pictograph: field8(joint, 2),
        next: ahead_of(next),
    })
}

fn boundaries(line: &[u8]) -> Option<Task>
    ensures { result ≡ Lines.boundaries line.now }
{
    Some(Task::Boundaries {
        cells: read_number(span(line, b';', 3), Base::Decimal, MOST16)?,
        records: count_items(span(line, b';', 4), Kind::Joint)?,
    })
}

fn task_of(line: &[u8], kind: u8) -> Option<Task>
    ensures { result ≡ task_of kind line.now }
{
    match (count(line, b';'), kind) {
        (4, b'l') => line_step(line),
        (4, b'L') => boundaries(line),
        (6, b'n') => boundary_step(line),
        _ => None,
    }
}

fn strength_of(name: &[u8]) -> Option<Strength>
    ensures { result ≡ strength_of name.now }
{
    if name == b"Normal".as_slice() {
        Some(Strength::Normal)
    } else if name == b"BreakAll".as_slice() {
        Some(Strength::BreakAll)
    } else if name == b"KeepAll".as_slice() {
        Some(Strength::KeepAll)
    } else {
        None
    }
}

// Whether the table is the crate's own, and none where it is not of the layout.
fn is_own(table: &[u8]) -> Option<bool>
    ensures { result ≡ own_of table.now }
{
    if table == b"crate".as_slice() {
        return Some(true);
    }
    count_items(table, Kind::Cell)?;
    Some(false)
}

fn lent_line(line: &[u8], kind: u8) -> Option<Line>
    ensures { result ≡ lent_line kind line.now }
{
    Some(Line::Lent {
        strength: strength_of(span(line, b';', 1))?,
        own: is_own(span(line, b';', 2))?,
        task: task_of(line, kind)?,
    })
}

fn kind_line(line: &[u8], kind: u8) -> Option<Line>
    ensures { result ≡ kind_line kind line.now }
{
    match (count(line, b';'), kind) {
        (5, _) => text_line(line, kind),
        (2, _) => run_line(line, kind),
        (3, b'w') => step_line(line),
        (3, _) => None,
        (_, b'F') => files_line(line),
        _ => lent_line(line, kind),
    }
}

pub fn read(line: &[u8]) -> Line
    ensures { result ≡ line_of line.now }
{
    if is_skipped(line) {
        return Line::Skipped;
    }
    kind_line(line, letter(span(line, b';', 0))).unwrap_or(Line::NotOfLayout)
}
