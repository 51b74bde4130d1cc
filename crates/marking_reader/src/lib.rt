// The marking reader: what a marking file answers, read for the history in a log.
#![tactic(auto)]

pub mod read;
pub mod step;
