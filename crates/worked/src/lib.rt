// Worked histories: the starred ones of the paper and others, as one list with what the definitions
// must say of each. The list is in specs/, the proof over it in proofs/.
#![tactic(auto)]
