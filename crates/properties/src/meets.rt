// Ranges that meet.
ghost use Rattle.std.specs.Prelude.{◌≡◌, ◌||◌, ◌≤◌, length};
ghost use Rattle.properties.specs.Reading.{share};
ghost use Rattle.properties.specs.Inner.{met_in, met_by};

use crate::Ruling;

#[tactic(auto, unfolding(crate::specs::Reading::share))]
fn shares(first: u32, last: u32, f: u32, l: u32) -> bool
    ensures { result ≡ share first last f l }
{
    f <= last && first <= l
}

// One of the first n ranges of the columns.
fn met_in(firsts: &[u32], lasts: &[u32], n: usize, first: u32, last: u32) -> bool
    requires { (n ≤ length firsts.now) × (n ≤ length lasts.now) }
    ensures { result ≡ met_in firsts.now lasts.now n first last }
{
    for k in 0..n {
        if shares(first, last, firsts[k], lasts[k]) {
            return true;
        }
    }
    false
}

// Whether the range of a line meets one among the first n.
#[tactic(auto, unfolding(crate::specs::Inner::met_by))]
pub(crate) fn met_by(ruling: Ruling, firsts: &[u32], lasts: &[u32], n: usize) -> bool
    requires { (n ≤ length firsts.now) × (n ≤ length lasts.now) }
    ensures { result ≡ met_by firsts.now lasts.now n ruling }
{
    match ruling {
        Ruling::Nothing | Ruling::Refused(_) => false,
        Ruling::Range { first, last, .. } => met_in(firsts, lasts, n, first, last),
    }
}
