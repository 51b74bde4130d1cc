// What a register holds after the places filled, looked up from them: no state of the search holds it.
ghost use Rattle.std.specs.Prelude.{◌≡◌, ◌<◌, get_or};
ghost use Rattle.places.specs.Facts.{all_registers, reads_asked};
ghost use Rattle.places.specs.Places.{codes_of, content_at};
ghost use Rattle.places.specs.State.{placed_of, Coded};
ghost use Rattle.places.specs.Told.{told};
ghost use Rattle.places.specs.Tree.{legal_at, legal_reads};

use crate::facts::{ALL, Facts, READS, REQUIRED, WRITTEN};
use crate::sets;
use crate::state::{Back, Search};

// What the search is told: the value of each register before any writer, the facts of the transactions, and the registers whose reads
// are asked about, one bit each. These are a u32, so that their type says that there are no others.
#[derive(Clone, Copy)]
pub struct Constraints<'a> {
    pub starts: &'a [u32; 32],
    pub facts: &'a [Facts; 11],
    pub asked: u32,
}

impl<'a> Constraints<'a> {
    // All registers are asked about.
    pub fn new(starts: &'a [u32; 32], facts: &'a [Facts; 11]) -> Self
        ensures { result ≡ record { starts = starts.entry; facts = facts.entry; asked = all_registers } }
    {
        Constraints {
            starts,
            facts,
            asked: ALL,
        }
    }

    // Those of the registers asked about that t reads from the store.
    pub fn reads_asked(&self, t: usize) -> u64
        requires { t < 11 }
        ensures value { result ≡ reads_asked self.now.facts.now self.now.asked t }
        ensures low { result < 4294967296 }
    {
        self.facts[t][READS] & u64::from(self.asked)
    }

    // What register holds before any writer.
    fn start_value(&self, register: usize) -> u64
        requires { register < 32 }
        ensures { result ≡ get_or self.now.starts.now register 0 }
    {
        u64::from(self.starts[register])
    }

    // What register holds after the places filled: the value of the last committed writer, looked for from the last place back, or the
    // start value. A place that is aborted writes nothing.
    pub fn content(&self, placed: u64, filled: usize, register: usize) -> u64
        requires coded { Coded filled placed }
        requires register_bound { register < 32 }
        ensures { result ≡ content_at self.now.starts.now self.now.facts.now (codes_of filled placed) register }
    {
        let places = Back {
            left: filled,
            rest: placed,
        };
        for code in places {
            if code % 2 == 1 {
                let w = self.facts[code / 2][WRITTEN + register];
                if w != 0 {
                    return w - 1;
                }
            }
        }
        self.start_value(register)
    }

    // Is the store read of register by t, if there is one, that of the register's content?
    pub fn legal_at(&self, placed: u64, filled: usize, t: usize, register: usize) -> bool
        requires coded { Coded filled placed }
        requires t_bound { t < 11 }
        requires register_bound { register < 32 }
        ensures { result ≡ legal_at self.now.starts.now self.now.facts.now (codes_of filled placed) t register }
    {
        let w = self.facts[t][REQUIRED + register];
        if w == 0 {
            return true;
        }
        self.content(placed, filled, register) == w - 1
    }

    // Is each store read of t from the registers asked about legal after the places of s? They are visited by their bits.
    pub fn legal_reads(&self, s: Search, t: usize) -> bool
        requires coded { Coded s.filled s.placed }
        requires t_bound { t < 11 }
        ensures { result ≡ legal_reads (told self.now) (placed_of s) t }
    {
        for r in sets::members(self.reads_asked(t)) {
            if !self.legal_at(s.placed, s.filled, t, r) {
                return false;
            }
        }
        true
    }
}
