// A state that a caller gives as numbers: its codes, and the refusal of numbers that no state has.
ghost use Rattle.std.specs.Prelude.{◌≡◌};
ghost use Rattle.exports.specs.States.{narrow, judged};

use records::{Refusal, Side};

// A number as a code: no list has 255 codes, so that a larger number is outside too.
pub(crate) fn code(x: u64) -> u8
    ensures { result ≡ narrow x }
{
    if x < 255 { x as u8 } else { 255 }
}

// The step's own refusals, then that of a number which stands for nothing that a state keeps.
#[tactic(auto, unfolding(crate::specs::States::judged))]
pub(crate) fn judge(v: Result<(), Refusal>, bad: bool) -> Result<(), Refusal>
    ensures { result ≡ judged v bad }
{
    v?;
    if bad {
        return Err(Refusal {
            number: 8,
            side: Side::Neither,
            index: 0,
        });
    }
    Ok(())
}
