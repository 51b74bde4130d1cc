// The tally of the transactions in a log: how each stands after the last event.
ghost use Rattle.std.specs.Prelude.{◌≡◌, true};
ghost use Rattle.events.specs.Questions.{readable};
ghost use Rattle.counts.specs.Tally.{tally};

use event_log::rows::transactions_begun;
use events::event::Event;
use links::tables::{Rank, ranks_of};

// How many transactions are committed, aborted, pending (commit is called and unanswered) and live
// (the others not ended).
#[derive(Clone, Copy)]
pub struct Tally {
    pub committed: usize,
    pub aborted: usize,
    pub pending: usize,
    pub live: usize,
}

// Tallies the transactions of a log.
pub fn tally_of(log: &[Event]) -> Tally
    requires { readable log.now ≡ true }
    ensures { result ≡ tally log.now }
{
    let ranks = ranks_of(log);
    let begun = transactions_begun(log);
    let mut tally = Tally {
        committed: 0,
        aborted: 0,
        pending: 0,
        live: 0,
    };
    for rank in &ranks[..begun] {
        match *rank {
            Rank::Committed => tally.committed += 1,
            Rank::Aborted => tally.aborted += 1,
            Rank::Pending => tally.pending += 1,
            Rank::Live => tally.live += 1,
        }
    }
    tally
}
