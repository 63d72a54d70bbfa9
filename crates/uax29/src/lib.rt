// The rules of UAX #29 (Unicode 15.0) in an executable form, for the texts on which the parsers are held to them and for the
// published test files; and clusters as they have them, for callers.
#![tactic(auto)]

pub mod clusters;
pub mod conjoined;
pub mod conjunct;
pub mod editions;
mod forward;
pub mod graphemes;
mod kept;
mod table;
pub mod words;
