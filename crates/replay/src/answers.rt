// The answer to one line.
use crate::breaks::lent;
use crate::files::{Sizes, files};
use crate::out::Out;
use crate::refusals::refusal;
use crate::texts::{Ask, text};
use crate::zeros::{CELLS, cells, column};
use cases::{Line, Machine, column8, span};
use records::Refusal;
use records::cells::first;
use words::{WordState, WordStep};

fn run_by(machine: Machine, classes: &[u8], marks: &[u8], out: &mut [u8]) -> Result<(), Refusal> {
    match machine {
        Machine::Words => words::run(classes, marks, out),
        Machine::Back => uax29::graphemes::graphemes_back(classes, marks, out),
        Machine::Forward => uax29::graphemes::graphemes_forward(classes, marks, out),
    }
}

// The cells, one blank between, or the refusal.
fn marked_run(out: &mut Out, line: &[u8], machine: Machine, size: usize, records: usize) {
    let section = span(line, b';', 2);
    let mut classes = column(0);
    let mut marks = column(0);
    let mut answers = cells(0);
    let n = column8(section, 0, records, &mut classes);
    let m = column8(section, 1, records, &mut marks);
    let k = size.min(CELLS);
    match run_by(machine, &classes[..n], &marks[..m], &mut answers[..k]) {
        Ok(()) => out.decimals(first(&answers, n), b' '),
        Err(r) => refusal(out, r),
    }
}

// "first,prev,prevent,count"
pub(crate) fn state(out: &mut Out, s: WordState) {
    out.decimals(
        &[
            u64::from(s.first),
            u64::from(s.previous),
            u64::from(s.prevent),
            u64::from(s.count),
        ],
        b',',
    );
}

// "ANSWER;first,prev,prevent,count", or the refusal and the state.
fn word_step(out: &mut Out, step: WordStep) {
    match step.verdict {
        Ok(()) => out.decimal(u64::from(step.answer)),
        Err(r) => refusal(out, r),
    }
    out.put(b';');
    state(out, step.state);
}

pub(crate) fn not_of_layout(out: &mut Out, number: u64) {
    out.text(b"? ");
    out.decimal(number);
    out.put(b'\n');
}

// The answer to a line with its number.
pub(crate) fn answer(out: &mut Out, line: &[u8], number: u64) {
    match cases::read(line) {
        Line::Skipped => return,
        Line::NotOfLayout => return not_of_layout(out, number),
        Line::Text {
            parser,
            mode,
            full,
            number: cells,
            records,
            parts,
        } => {
            let ask = Ask {
                parser,
                mode,
                full,
                number: cells as usize,
            };
            text(out, line, ask, records as usize, parts as usize);
        }
        Line::Marked {
            machine,
            cells,
            records,
        } => marked_run(out, line, machine, cells as usize, records as usize),
        Line::Step {
            state,
            class,
            pictograph,
            next,
        } => word_step(out, state.step(class, pictograph, next)),
        Line::Lent {
            strength,
            own,
            task,
        } => lent(out, line, strength, own, task),
        Line::Files {
            clusters,
            words,
            blocks,
            cells,
            scalars,
        } => {
            let sizes = Sizes {
                clusters: usize::from(clusters),
                words: usize::from(words),
                blocks: blocks as usize,
                scalars: scalars as usize,
                cells: cells as usize,
            };
            files(out, line, sizes);
        }
    }
    out.put(b'\n');
}
