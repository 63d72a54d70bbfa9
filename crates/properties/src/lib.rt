// The Unicode property files: their value names, their lines, and range columns with their lookup.
#![tactic(auto)]

mod file_lines;
mod lookups;
mod meets;
mod merging;
mod names;
mod ranges;
mod reading;
mod rulings;
mod verdicts;

pub use file_lines::{line_of, value_in};
pub use lookups::lookup;
pub use names::code_of;
pub use reading::read;
use records::Refusal;
pub use rulings::ruling_of;

// Which of the two property files.
#[derive(Clone, Copy, Debug, PartialEq, Eq)]
pub enum File {
    // GraphemeBreakProperty.txt
    Cluster,
    // WordBreakProperty.txt
    Word,
}

// What a line of a property file holds: one of three, as 12.2 has them, so no Result around an Option. Theorems name each: `skipped_lines`,
// `line_malformed` and `malformed_lines`, `said_line` and `line_unknown`.
#[derive(Clone, Copy, Debug, PartialEq, Eq)]
pub enum Line {
    // blanks alone, or a comment
    Skipped,
    // 11
    Malformed,
    // the first and the last scalar; the two are one where the line has no dots
    Range { first: u32, last: u32 },
}

// What a line says in a file: again one of three.
#[derive(Clone, Copy, Debug, PartialEq, Eq)]
pub enum Ruling {
    Nothing,
    // 11 or 12, the number of the refusal (12.2) that C is told
    Refused(u8),
    Range { first: u32, last: u32, code: u8 },
}

// What the reader answers: its verdict, and how many ranges are held then, with a refusal as many as before (HasRead), so no Result.
#[derive(Clone, Copy, Debug, PartialEq, Eq)]
pub struct Filled {
    pub verdict: Result<(), Refusal>,
    pub held: usize,
}
