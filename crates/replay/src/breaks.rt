// The lines over a table: the line step, the step of `next` and its run.
use crate::answers::state;
use crate::out::Out;
use crate::refusals::refusal;
use crate::zeros::{CELLS, cells, column};
use cases::{Task, column8, lay_table, span};
use lines::pair_table::pair_table;
use lines::{Boundary, BoundaryState, BoundaryStep, LineState, LineStep, Strength};
use records::Refusal;
use records::cells::first;

fn answered(out: &mut Out, verdict: Result<(), Refusal>, answer: Boundary) {
    match verdict {
        Ok(()) => out.decimal(u64::from(u8::from(answer))),
        Err(r) => refusal(out, r),
    }
}

// ";row,prev"
fn line_state(out: &mut Out, s: LineState) {
    out.put(b';');
    out.decimal(u64::from(s.row));
    out.put(b',');
    match s.previous {
        Some(class) => out.decimal(u64::from(class)),
        None => out.put(b'-'),
    }
}

// "ANSWER;row,prev"
fn line_step(out: &mut Out, step: LineStep) {
    answered(out, step.verdict, step.answer);
    line_state(out, step.state);
}

// "ANSWER;row,prev;first,prev,prevent,count"
fn boundary_step(out: &mut Out, step: BoundaryStep) {
    answered(out, step.verdict, step.answer);
    line_state(out, step.state.line);
    out.put(b';');
    state(out, step.state.word);
}

fn boundaries(
    out: &mut Out,
    section: &[u8],
    table: &[u8],
    strength: Strength,
    size: usize,
    records: usize,
) {
    let mut lines = column(0);
    let mut words = column(0);
    let mut pictographs = column(0);
    let mut answers = cells(0);
    let n = column8(section, 0, records, &mut lines);
    let m = column8(section, 1, records, &mut words);
    let p = column8(section, 2, records, &mut pictographs);
    let k = size.min(CELLS);
    let verdict = lines::run(
        table,
        strength,
        &lines[..n],
        &words[..m],
        &pictographs[..p],
        &mut answers[..k],
    );
    match verdict {
        Ok(()) => out.decimals(first(&answers, n), b' '),
        Err(r) => refusal(out, r),
    }
}

fn over(out: &mut Out, line: &[u8], table: &[u8], strength: Strength, task: Task) {
    match task {
        Task::LineStep { state, class } => line_step(out, state.step(table, strength, class)),
        Task::BoundaryStep {
            line_state,
            word_state,
            line: class,
            word,
            pictograph,
            next,
        } => {
            let state = BoundaryState {
                line: line_state,
                word: word_state,
            };
            boundary_step(
                out,
                state.next(table, strength, class, word, pictograph, next),
            );
        }
        Task::Boundaries { cells, records } => boundaries(
            out,
            span(line, b';', 4),
            table,
            strength,
            cells as usize,
            records as usize,
        ),
    }
}

pub(crate) fn lent(out: &mut Out, line: &[u8], strength: Strength, own: bool, task: Task) {
    if own {
        return over(out, line, &pair_table(), strength, task);
    }
    let mut table = [0; 11307];
    let n = lay_table(span(line, b';', 2), &mut table);
    over(out, line, first(&table, n), strength, task);
}
