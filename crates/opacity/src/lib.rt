// The theory of opacity: what a history says of its transactions, justifications, the lowest one, markings and
// their rules, and the scan. The definitions are in specs/, the theorems about them in proofs/.
#![tactic(auto)]

pub mod verdict;
