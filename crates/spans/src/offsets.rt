// Counting bytes along the records.
ghost use Rattle.std.specs.Prelude.{◌≡◌};
ghost use Rattle.spans.specs.Offsets.{bytes_of, offset_of, length_of};
ghost use Rattle.spans.specs.Inner.{Counts, counted_before};

use records::cells::cell;

// How many bytes a scalar has.
#[tactic(auto, unfolding(crate::specs::Offsets::bytes_of))]
fn bytes_of(x: u32) -> u32
    ensures { result ≡ bytes_of x }
{
    match x {
        0..0x80 => 1,
        0x80..0x800 => 2,
        0x800..0x10000 => 3,
        _ => 4,
    }
}

// How many bytes a record has.
pub(crate) fn length_of(scalars: &[u32], index: u16) -> u32
    ensures { result ≡ length_of scalars.now index }
{
    bytes_of(cell(scalars, index as usize, 0))
}

// How many bytes stand before a record: whoever goes on from there counts no record anew.
#[derive(Clone, Copy)]
pub(crate) struct Counted {
    pub index: u16,
    pub bytes: u32,
}

impl Counted {
    pub(crate) const START: Counted = Counted { index: 0, bytes: 0 };

    // Where to count from up to a record: here, or at the text's start where the record lies before.
    fn begin(self, index: u16) -> Counted
        ensures { result ≡ counted_before self index }
    {
        if index < self.index {
            return Counted::START;
        }
        self
    }

    // The same of another record.
    pub(crate) fn to(self, scalars: &[u32], index: u16) -> Counted
        requires { Counts scalars.now self }
        ensures { result ≡ record { index = index; bytes = offset_of scalars.now index } }
    {
        let from = self.begin(index);
        let mut bytes = from.bytes;
        for i in from.index..index {
            bytes += length_of(scalars, i);
        }
        Counted { index, bytes }
    }
}
