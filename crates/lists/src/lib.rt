// Tests and searches over lists, the words of all definitions, and their laws: nothing here is about
// histories. The only code is that of sets in one number, and of numbers that may be none.
#![tactic(auto)]

pub mod numbers;
pub mod sets;
