// What one line says in a file.
ghost use Rattle.std.specs.Prelude.{◌≡◌};
ghost use Rattle.properties.specs.Rulings.{ruling_of};

use crate::file_lines::{line_of, value_in};
use crate::names::code_of;
use crate::{File, Line, Ruling};

// Of a line without its LF.
#[tactic(auto, unfolding(crate::specs::Rulings::ruling_of))]
pub fn ruling_of(file: File, line: &[u8]) -> Ruling
    ensures { result ≡ ruling_of file line.now }
{
    match line_of(line) {
        Line::Skipped => Ruling::Nothing,
        Line::Malformed => Ruling::Refused(11),
        Line::Range { first, last } => match code_of(file, value_in(line)) {
            Some(code) => Ruling::Range { first, last, code },
            None => Ruling::Refused(12),
        },
    }
}
