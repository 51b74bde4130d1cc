// The counts of the report's first line and the tally of its second, of columns that no one has put a
// question to yet: 17, 3 and each event's own questions come first, then the events are counted.
#![tactic(auto)]

ghost use Rattle.std.specs.Prelude.{◌≡◌};
ghost use Rattle.event_log.specs.Lent.{columns_of};
ghost use Rattle.counts.specs.Answer.{transactions_answer, store_reads_answer, tally_answer};

pub mod tally;

use crate::tally::{Tally, tally_of};
use event_log::admit::judged;
use event_log::columns::History;
use event_log::rows::transactions_begun;
use events::refusal::Refusal;

// How many transactions begin in a history, or the question that says no to it, with its event.
pub fn count_transactions(history: &History) -> Result<usize, Refusal>
    ensures { result ≡ transactions_answer history.now.edition history.now.starts.now
        (columns_of history.now.columns) history.now.count }
{
    judged(history, |log| transactions_begun(log))
}

// How many store reads a history has.
pub fn count_store_reads(history: &History) -> Result<usize, Refusal>
    ensures { result ≡ store_reads_answer history.now.edition history.now.starts.now
        (columns_of history.now.columns) history.now.count }
{
    judged(history, |log| reads::count_store_reads(log))
}

// How many of the transactions in a history are committed, aborted, pending and live.
pub fn tally_transactions(history: &History) -> Result<Tally, Refusal>
    ensures { result ≡ tally_answer history.now.edition history.now.starts.now
        (columns_of history.now.columns) history.now.count }
{
    judged(history, |log| tally_of(log))
}
