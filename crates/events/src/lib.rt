// The one event, the questions put to it, and what validation knows of the events before it.
#![tactic(auto)]

pub mod before;
pub mod bodies;
pub mod event;
pub mod refusal;
pub mod state;
