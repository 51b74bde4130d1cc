// The places that the search fills: `facts` has what it is told of the transactions, `state` the places, `sets` the sets of transactions
// beside them, `lookup` what they leave in a register.
#![tactic(auto)]

pub mod facts;
pub mod lookup;
pub mod sets;
pub mod state;
