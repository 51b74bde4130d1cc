// What the walks of the search go by.
ghost use Rattle.pruning.specs.Runs.{Effects};

use places::lookup::Constraints;

// The tree of orders and outcomes that the search goes through: what the search is told, and what each commit does to each transaction,
// that of x to t in row x at t.
#[derive(Clone, Copy)]
pub struct Tree<'a> {
    pub constraints: Constraints<'a>,
    pub effects: &'a [[u64; 10]; 10],
    pub ghost known: { Effects constraints.facts.now constraints.asked effects.now },
}
