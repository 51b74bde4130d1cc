// What the rules of the checker look up, tabled once: facts of each transaction, and the writes of
// each transaction linked backwards.
#![tactic(auto)]

pub mod tables;
pub mod writes;
