// The writes of each transaction, linked backwards, so that what a transaction wrote is found
// without going through the events of others.
ghost use Rattle.std.specs.Prelude.{◌≡◌, true, ◌≤◌, length};
ghost use Rattle.events.specs.Questions.{readable};
ghost use Rattle.links.specs.Writes.{Linked};

use crate::tables::last_one;
use events::event::{Event, is_write};

// For each event, the last write of its transaction before it; the entries past the last event are left
// as they were.
#[tactic(auto, using(crate::proofs::LogLaws::readable_log))]
pub fn links(log: &[Event], link: &mut [Option<u16>])
    requires log_value { readable log.now ≡ true }
    requires log_in_bounds { length log.now ≤ length link.old }
    ensures { Linked log.now link.new }
{
    let mut last = [None; 64];
    for (i, e) in log.iter().enumerate() {
        let t = usize::from(e.transaction);
        link[i] = last[t];
        last[t] = last_one(is_write(*e), i as u16, last[t]);
    }
}
