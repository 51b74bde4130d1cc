// What a record past the head of a history answers.
#![tactic(auto)]

pub mod step;
