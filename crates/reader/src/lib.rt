// A reader over the lent columns that keeps its place: a struct that borrows them, and thin functions over it.
#![tactic(auto)]

ghost use Rattle.std.specs.Prelude.{◌≡◌};
ghost use Rattle.records.specs.Text.{lent};
ghost use Rattle.segment.specs.Calls.{next_of};
ghost use Rattle.reader.specs.Reading.{answer_of, moved_to};

use records::Columns;
use segment::{Answer, Segmenter};

// The parser, its mode and its place, and the columns.
#[derive(Clone, Copy)]
pub struct Reader<'a> {
    pub state: Segmenter,
    pub columns: Columns<'a>,
}

impl<'a> Reader<'a> {
    // A reader that stands where the state does: `Segmenter::start` for the start of the text.
    pub fn new(state: Segmenter, columns: Columns<'a>) -> Reader<'a>
        ensures { result ≡ record { state = state; columns = columns.entry } }
    {
        Reader { state, columns }
    }

    // The stepping call at the reader's place. The reader stays where it is.
    pub fn next(&self) -> Answer
        ensures { result ≡ answer_of self.now }
    {
        self.state.next(&self.columns)
    }

    // The stepping call at the reader's place. The reader stands at the next place afterwards.
    pub fn advance(&mut self) -> Answer
        ensures { (result ≡ answer_of self.old) × (self.new ≡ moved_to self.old (answer_of self.old).state) }
    {
        let answer = self.next();
        self.state = answer.state;
        answer
    }
}

// One call of a reader, for a loop that keeps the state itself.
pub fn read(state: Segmenter, columns: Columns) -> Answer
    ensures { result ≡ next_of state (lent columns.entry) }
{
    Reader::new(state, columns).next()
}
