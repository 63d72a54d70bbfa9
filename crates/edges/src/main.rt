// Both edges of every refusal of the check: a small text, or a long one, in which one cell or one length is another; one line of
// verdicts for each.
#![tactic(auto)]

mod lengths;
mod texts;
mod verdicts;

fn main() {
    texts::single_cells();
    texts::runs_of_parts();
    texts::joiners();
    texts::khmer_signs();
    texts::orders();
    lengths::columns();
    lengths::words();
}
