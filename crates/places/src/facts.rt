// The facts that the search is told: a row for each transaction, and one for the end of an order.
use events::before::Before;

// The row of a transaction, or of the end: 67 numbers, in the columns below. It has nine lines of 64 bytes, so that the place of a row is
// found by an addition and a shift: the walks of the search find one at each step.
pub type Facts = [u64; 72];

// Question 31: at most so many transactions are searched. Their rows come first.
pub const SEARCHED: usize = 10;

// The row of the end: it has no outcome and writes nothing.
pub const END: usize = 10;

// As an index, how many registers there are.
pub const REGISTERS: usize = Before::REGISTERS as usize;

// Those that must come before it, one bit each.
pub const AFTER: usize = 0;

// The rule of its outcome.
pub const ALLOWED: usize = 1;

// The registers that it reads from the store, one bit each.
pub const READS: usize = 2;

// What its store reads of each register return, plus 1, with 0 for none, from this column on.
pub const REQUIRED: usize = 3;

// Its last write to each register, plus 1, with 0 for none, from this column on.
pub const WRITTEN: usize = 35;

// Outcomes, and as rules the outcomes that a transaction may have: this one, either, or none.
// Kept as numbers: a row of facts is an array of numbers, and `rule_next` and `fits_at` of the specs count them so.
pub const ABORTED: u64 = 0;

pub const COMMITTED: u64 = 1;

pub const EITHER: u64 = 2;

pub const NONE: u64 = 3;

// All registers, one bit each.
pub const ALL: u32 = 4294967295;
