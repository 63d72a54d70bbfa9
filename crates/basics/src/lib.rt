// What crates of every height need: sets of codes and rows of choices (specs/), tests in the code that are choices of a definition
// (proofs/), and the lesser of two numbers.
#![tactic(auto)]

ghost use Rattle.std.specs.Prelude.{◌≡◌, min};

// `min` says it too; the function stays, as its edits, which name it, are to stay.
pub fn shorter(a: usize, b: usize) -> usize
    ensures { result ≡ min a b }
{
    a.min(b)
}
