// The sixteen marked cases of SCOPE 9.1, by the public functions: a line for each, `P01 ok` to `P16 ok`, or `fails`. The same
// table stands in specs/Cases.antt for the definitions.
#![tactic(auto)]

mod calls;
mod clusters;
mod runs;
mod texts;

use classes::Mode;
use clusters::{p01, p02, p03, p04, p05, p06, p07, p08, p09, p10, p11, p12, p13};
use console::{decimal, write};
use runs::{p14, p15, p16};

fn line(number: u64, good: bool) {
    write(b"P");
    if number < 10 {
        write(b"0");
    }
    decimal(number);
    write(if good { b" ok\n" } else { b" fails\n" });
}

// Both modes have to answer what the case tells.
fn both<F: Fn(Mode) -> bool>(number: u64, answers: F)
    requires { F.IsAlwaysCallable answers }
{
    line(number, answers(Mode::Crate) && answers(Mode::Whole));
}

fn main() {
    both(1, p01);
    both(2, p02);
    both(3, p03);
    both(4, p04);
    both(5, p05);
    both(6, p06);
    both(7, p07);
    both(8, p08);
    both(9, p09);
    both(10, p10);
    both(11, p11);
    both(12, p12);
    both(13, p13);
    line(14, p14());
    line(15, p15());
    line(16, p16());
}
