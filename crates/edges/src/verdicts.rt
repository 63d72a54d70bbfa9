// What is printed of a verdict.
use console::{decimal, refusal, write};
use records::Refusal;

// " ok", or " R NUMBER INDEX SIDE".
pub(crate) fn verdict(v: Result<(), Refusal>) {
    match v {
        Ok(()) => write(b" ok"),
        Err(r) => {
            write(b" ");
            refusal(r);
        }
    }
}

// One digit: the number of the refusal, or a dot.
pub(crate) fn digit(v: Result<(), Refusal>) {
    match v {
        Ok(()) => write(b"."),
        Err(r) => decimal(u64::from(r.number)),
    }
}
