// What the public functions promise together: the theorems that need the answers of more than one
// of them. They are in proofs/.
#![tactic(auto)]
