// A history as it comes in and as it stands inside: columns, asked and taken in at the doors, and the
// rows of a log, which is what every function behind a door is given.
#![tactic(auto)]

pub mod admit;
pub mod columns;
pub mod rows;
pub mod starts;
