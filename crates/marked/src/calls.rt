// Whether the calls on a text answer what a case tells: every cell of every answer, to the end's own.
use crate::texts::{Text, next};
use classes::Mode;
use parse::Cluster;
use segment::{Answer, Segmenter, What};

// What a case tells of a call: the cluster, and the next place.
#[derive(Clone, Copy)]
pub(crate) struct Call {
    pub cluster: Cluster,
    pub next: usize,
}

// The place handed back, and the distance to it.
fn leads(answer: &Answer, from: usize, to: usize) -> bool {
    from <= to && answer.state.place.at == to && answer.passed == to - from
}

fn is_told(answer: &Answer, from: usize, call: &Call) -> bool {
    matches!(answer.what, What::Found)
        && leads(answer, from, call.next)
        && answer.cluster == call.cluster
}

// The end's answer: the same place, an empty cluster and 0.
fn is_end(answer: &Answer, at: usize) -> bool {
    matches!(answer.what, What::Over) && leads(answer, at, at) && answer.cluster == Cluster::EMPTY
}

// Whether the calls from the start answer what is told, and then the end.
pub(crate) fn answers(t: &Text, mode: Mode, told: &[Call]) -> bool {
    let mut state = Segmenter::start(t.parser, mode);
    for call in told {
        let answer = next(state, t);
        if !is_told(&answer, state.place.at, call) {
            return false;
        }
        state = answer.state;
    }
    is_end(&next(state, t), state.place.at)
}
