// P14 to P16: the word run on columns of three or four records.
use classes::word_break::{ALetter, LF, MidNumLet, Other, RI, ZWJ};

// Cells that hold neither 0 nor 1 before.
fn answers(words: &[u8], pictographs: &[u8], told: &[u8]) -> bool {
    let mut cells = [7; 4];
    let out = &mut cells[..told.len().min(4)];
    words::run(words, pictographs, out).is_ok() && *out == *told
}

pub(crate) fn p14() -> bool {
    answers(&[ALetter, MidNumLet, ALetter], &[0, 0, 0], &[1, 0, 0])
}

// Whatever the mark of the ZWJ.
pub(crate) fn p15() -> bool {
    answers(&[Other, ZWJ, Other], &[1, 0, 1], &[1, 0, 1])
        && answers(&[Other, ZWJ, Other], &[1, 1, 1], &[1, 0, 1])
}

pub(crate) fn p16() -> bool {
    answers(&[LF, RI, RI, RI], &[0, 0, 0, 0], &[1, 1, 0, 0])
        && answers(&[RI, RI, RI], &[0, 0, 0], &[1, 0, 1])
}
