// What the rules of points look up, and the walk back over places and, at each, over the writes of its
// transaction.
ghost use Rattle.std.specs.Prelude.{◌≡◌, ◌≤◌, ◌<◌};
ghost use Rattle.links.specs.Writes.{given};
ghost use Rattle.rules.specs.Walks.{Pointable, start_at, last_in};

use crate::places::Writer;
use events::event::Event;
use lists::sets::has_register;

// What the rules of points look up: the start values, a log whose writes are linked, by place what is
// written, by transaction the place, and by event the gap of its point.
#[derive(Clone, Copy)]
pub struct Points<'a> {
    pub starts: &'a [u32; 32],
    pub log: &'a [Event],
    pub link: &'a [Option<u16>],
    pub writers: &'a [Writer; 64],
    pub place: &'a [u16; 64],
    pub gaps: &'a [u16],
    ghost pointable: { Pointable log.now link.now writers.now place.now gaps.now },
}

// The write at which the walk over those of place k starts: none, where that is the reader's own place or
// its transaction does not write r.
fn start_at(writers: &[Writer; 64], own: usize, r: u16, k: usize) -> Option<u16>
    requires k_bound { k < 64 }
    requires r_bound { r < 32 }
    ensures { result ≡ start_at writers.now own r k }
{
    if k == own {
        return None;
    }
    let writer = writers[k];
    if !has_register(writer.registers, usize::from(r)) {
        return None;
    }
    writer.last
}

impl Points<'_> {
    // The value of the last writer of r but the one at place own, among the places from lo up to hi.
    // Looks back over the places and, at each, over the writes of its transaction; the search is left at
    // the first write to r.
    // Kept as a `while let`: the writes of a transaction are a chain of links, and no range.
    pub fn last_writer(&self, own: usize, r: u16, lo: usize, hi: usize) -> Option<u32>
        requires { (lo ≤ hi) × (hi ≤ 64) × (r < 32) }
        ensures { result ≡ given (last_in self.now.log.now self.now.link.now self.now.writers.now
            own r lo hi) }
    {
        let mut k = hi;
        let w = 'walk: loop {
            if k == lo {
                break 'walk None;
            }
            k -= 1;
            let mut next = start_at(self.writers, own, r, k);
            while let Some(i) = next {
                let e = self.log[usize::from(i)];
                if e.register == r {
                    break 'walk Some(e.value);
                }
                next = self.link[usize::from(i)];
            }
        };
        w
    }
}
