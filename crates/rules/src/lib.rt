// The checker's rules A to E over a log, for a readable history and a readable marking.
//
// Cost: the tables take one pass over the events together. Rule A looks at each transaction once,
// rule B at each pair. Rules D and E look, for each store read, at each place between two gaps once,
// and, of a transaction placed there that writes the register, at each write at most once: reads x
// (places + writes) steps at most. Reads and writes share the events, so where there are many reads
// there are few writes.
#![tactic(auto)]

mod first;
pub mod judge;
pub mod order;
pub mod places;
pub mod points;
pub mod walk;
