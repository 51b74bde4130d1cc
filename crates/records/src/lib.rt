// Files: little-endian fields, and records, each a 2-byte length, a 2-byte kind and a body.
#![tactic(auto)]

pub mod fields;
pub mod record;
