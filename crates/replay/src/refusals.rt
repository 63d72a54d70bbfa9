// What is printed of a refusal: "R NUMBER INDEX" and the side.
use crate::out::Out;
use console::side_letter;
use records::Refusal;

fn refused(out: &mut Out, r: Refusal, side: u8) {
    out.text(b"R ");
    out.decimals(&[u64::from(r.number), r.index as u64], b' ');
    out.text(&[b' ', side]);
}

pub(crate) fn refusal(out: &mut Out, r: Refusal) {
    refused(out, r, side_letter(r.side));
}

// The index is the number of a line, from 1, or 0 where it is of none.
pub(crate) fn line_refusal(out: &mut Out, r: Refusal) {
    refused(out, r, if r.index == 0 { b'-' } else { b'l' });
}
