// The checker: its door and its answer.
#![tactic(auto)]

pub mod check;
