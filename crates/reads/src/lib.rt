// Own reads and store reads of a log: whether a read returns what its own transaction wrote is decided
// here alone, by one pass that keeps the last write of each transaction to each register.
#![tactic(auto)]

ghost use Rattle.std.specs.Prelude.{◌≡◌, true, ◌^◌, ◌≤◌, ◌<◌, length};
ghost use Rattle.lists.specs.Filled.{Front};
ghost use Rattle.events.specs.Events.{begins};
ghost use Rattle.events.specs.Questions.{readable};
ghost use Rattle.opacity.specs.Transactions.{is_store_read, store_reads, own_right};
ghost use Rattle.reads.specs.Own.{OwnWrites, last_at, noted, noted_at, reads_store, gap_of, placed_at};

use event_log::rows::transactions_begun;
use events::event::{Event, is_read, is_write};

// What stands for no point, in a table of gaps by event.
// Kept as a number: an `Option<u16>` doubles the table of 2,048 events, and `is_gap` and the rules speak of numbers.
pub const NO_POINT: u16 = 65535;

// So many transactions are few: their last writes have a table that is soon cleared.
pub const FEW_TRANSACTIONS: usize = 10;

// A readable history begins at most so many.
const MOST_TRANSACTIONS: usize = 64;

// What a table has at the register of event i after it: one past the event, if it writes.
fn noted_at(e: Event, i: usize, before: u16) -> u16
    requires { i < 2048 }
    ensures { result ≡ noted_at e i before }
{
    if is_write(e) { (i + 1) as u16 } else { before }
}

// The last write of each of N transactions to each register, as one past its event, 0 for none.
#[derive(Drop)]
struct LastWrites<const N: usize> {
    rows: [[u16; 32]; N],
}

impl<const N: usize> LastWrites<N> {
    // Notes event i, and answers what stood before it at its register.
    fn note(&mut self, e: Event, i: usize) -> u16
        requires i_bound { i < 2048 }
        requires transaction_bound { e.transaction < N }
        requires register_bound { e.register < 32 }
        ensures value { result ≡ last_at self.old.rows e.transaction e.register }
        ensures rows_after { self.new.rows ≡ noted self.old.rows e i }
    {
        let t = usize::from(e.transaction);
        let r = usize::from(e.register);
        let before = self.rows[t][r];
        self.rows[t][r] = noted_at(e, i, before);
        before
    }
}

// For each event, one past the last write before it of its transaction to its register, 0 for none.
// Kept as numbers: an `Option<u16>` doubles the table of 2,048 events that a caller holds.
pub fn own_writes(log: &[Event], own: &mut [u16])
    requires log_value { readable log.now ≡ true }
    requires log_in_bounds { length log.now ≤ length own.old }
    ensures { OwnWrites log.now own.new }
{
    let mut last = LastWrites {
        rows: [[0u16; 32]; MOST_TRANSACTIONS],
    };
    for (i, e) in log.iter().enumerate() {
        own[i] = last.note(*e, i);
    }
}

// Is it a read of the store, where this is what its transaction wrote last to its register?
fn reads_store(e: Event, own: u16) -> bool
    ensures { result ≡ reads_store e own }
{
    own == 0 && is_read(e)
}

// Is event i a read of the store?
pub fn is_store_read(log: &[Event], own: &[u16], i: usize) -> bool
    requires own_writes { OwnWrites log.now own.now }
    requires i_in_bounds { i < length log.now }
    ensures { result ≡ is_store_read log.now i }
{
    reads_store(log[i], own[i])
}

// Rule C at event i: a read of what its own transaction wrote returns the last such write.
pub fn own_right(log: &[Event], own: &[u16], i: usize) -> bool
    requires own_writes { OwnWrites log.now own.now }
    requires i_in_bounds { i < length log.now }
    ensures { result ≡ own_right log.now i }
{
    let e = log[i];
    let w = usize::from(own[i]);
    w == 0 || !is_read(e) || e.value == log[w - 1].value
}

// How many reads of the store the log has, counted with a table of so many transactions.
pub fn count_by<const N: usize>(log: &[Event]) -> usize
    requires log_value { readable log.now ≡ true }
    requires room { (begins log.now ≤ N) × (N < 2 ^ 57) }
    ensures { result ≡ length (store_reads log.now) }
{
    let mut last = LastWrites {
        rows: [[0u16; 32]; N],
    };
    let mut reads = 0;
    for (i, e) in log.iter().enumerate() {
        let own = last.note(*e, i);
        reads += usize::from(reads_store(*e, own));
    }
    reads
}

// How many reads of the store the log has.
pub fn count_store_reads(log: &[Event]) -> usize
    requires { readable log.now ≡ true }
    ensures { result ≡ length (store_reads log.now) }
{
    if transactions_begun(log) <= FEW_TRANSACTIONS {
        count_by::<FEW_TRANSACTIONS>(log)
    } else {
        count_by::<MOST_TRANSACTIONS>(log)
    }
}

// The gap of an event where each store read has its point at a place that is tabled by transaction.
fn gap_of(e: Event, own: u16, place: &[u16; 64]) -> u16
    requires { e.transaction < 64 }
    ensures { result ≡ gap_of (reads_store e own) e place.now }
{
    if reads_store(e, own) {
        place[usize::from(e.transaction)]
    } else {
        NO_POINT
    }
}

// Puts the gap of each event of a log, where each store read has its point at its reader's place, by a table of so many transactions.
pub fn put_gaps<const N: usize>(log: &[Event], place: &[u16; 64], gaps: &mut [u16])
    requires log_value { readable log.now ≡ true }
    requires room { (begins log.now ≤ N) × (N < 2 ^ 57) }
    requires log_in_bounds { length log.now ≤ length gaps.old }
    ensures { Front 0 (placed_at log.now place.now) (length log.now)
        gaps.new }
{
    let mut last = LastWrites {
        rows: [[0u16; 32]; N],
    };
    for (i, e) in log.iter().enumerate() {
        let own = last.note(*e, i);
        gaps[i] = gap_of(*e, own, place);
    }
}
