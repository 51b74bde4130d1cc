// The test before each walk of the search: is there hope for a state? `hope` asks by a shorter search over the committed places alone,
// and its answer false is certain: nothing completes the state. `effects` has what a commit does to the reads of others, `unwritten` the
// reads of registers that nobody writes, which are asked about once, and `tree` what all of it goes by.
#![tactic(auto)]

pub mod effects;
pub mod hope;
pub mod tree;
pub mod unwritten;
