// Registers that nobody writes: every order leaves them as they started, so that reads of them are asked about once, before the search.
ghost use Rattle.std.specs.Prelude.{◌≡◌};
ghost use Rattle.pruning.specs.Runs.{Written, WrittenByAny, Asked};

use places::facts::{ALL, END, Facts};
use places::lookup::Constraints;
use places::state::Search;

// The registers that somebody writes.
fn written_by_any(writes: &[u32; 10]) -> u32
    ensures { WrittenByAny writes.now result }
{
    let mut any = 0u32;
    for registers in writes {
        any |= *registers;
    }
    any
}

// The registers whose reads are asked about at each place: those that somebody writes, if the reads of the others are right before any
// writer; and else all.
pub fn registers_asked(starts: &[u32; 32], facts: &[Facts; 11], writes: &[u32; 10]) -> u32
    requires { Written facts.now writes.now }
    ensures { Asked starts.now facts.now result }
{
    let any = written_by_any(writes);
    let others = Constraints {
        starts,
        facts,
        asked: ALL ^ any,
    };
    let nothing = Search {
        unplaced: 0,
        filled: 0,
        placed: 1,
    };
    for t in 0..=END {
        if !others.legal_reads(nothing, t) {
            return ALL;
        }
    }
    any
}
