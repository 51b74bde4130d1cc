// What the events say of each transaction, tabled by going once through them.
ghost use Rattle.std.specs.Prelude.{◌≡◌, true, ◌<◌};
ghost use Rattle.events.specs.Questions.{readable};
ghost use Rattle.links.specs.Tables.{last_one, first_one, further, rank_of, with_written, noted, AllTabled, Ranked};

use events::event::{Event, asks_commit, is_abort, is_begin, is_commit, is_end, is_write};
use lists::sets::with_register;

// How far a transaction has come: it lives, its commit is called, or it has ended.
#[derive(Clone, Copy, PartialEq, Eq, PartialOrd, Ord)]
pub enum Rank {
    Live,
    Pending,
    Aborted,
    Committed,
}

// How far an event brings its transaction.
#[tactic(auto, unfolding(crate::specs::Tables::rank_of, crate::specs::Tables::rank))]
fn rank_of(e: Event) -> Rank
    ensures { result ≡ rank_of e }
{
    if is_commit(e) {
        return Rank::Committed;
    }
    if is_abort(e) {
        return Rank::Aborted;
    }
    if asks_commit(e) {
        return Rank::Pending;
    }
    Rank::Live
}

// How far a transaction has come with its event e.
fn rank_with(rank: Rank, e: Event) -> Rank
    ensures { result ≡ further rank (rank_of e) }
{
    rank.max(rank_of(e))
}

// The last event that passes, where x was the last one before event i.
#[tactic(auto, unfolding(crate::specs::Tables::last_one))]
pub fn last_one(passes: bool, i: u16, x: Option<u16>) -> Option<u16>
    ensures { result ≡ last_one passes i x }
{
    if passes { Some(i) } else { x }
}

// The first event that passes, where x was the first one before event i.
#[tactic(auto, unfolding(crate::specs::Tables::first_one))]
fn first_one(passes: bool, i: u16, x: Option<u16>) -> Option<u16>
    ensures { result ≡ first_one passes i x }
{
    if passes { x.or(Some(i)) } else { x }
}

// The set of the registers that a transaction has written, after its event e.
fn written_with(set: u32, e: Event) -> u32
    requires { e.register < 32 }
    ensures { result ≡ with_written e set }
{
    if is_write(e) {
        return with_register(set, usize::from(e.register));
    }
    set
}

// What the events so far say of a transaction: how far it has come, its first end, its last begin and its
// last write, and the set of the registers that it has written.
#[derive(Clone, Copy)]
pub struct Transaction {
    pub rank: Rank,
    pub ended: Option<u16>,
    pub began: Option<u16>,
    pub written: Option<u16>,
    pub registers: u32,
}

impl Transaction {
    // Nothing has been said of it.
    const BLANK: Transaction = Transaction {
        rank: Rank::Live,
        ended: None,
        began: None,
        written: None,
        registers: 0,
    };

    // What is said after its event e, of number i.
    fn noted(self, e: Event, i: u16) -> Transaction
        requires { e.register < 32 }
        ensures { result ≡ noted e i self }
    {
        Transaction {
            rank: rank_with(self.rank, e),
            ended: first_one(is_end(e), i, self.ended),
            began: last_one(is_begin(e), i, self.began),
            written: last_one(is_write(e), i, self.written),
            registers: written_with(self.registers, e),
        }
    }
}

// What the events of a log say of each transaction.
#[tactic(auto, using(crate::proofs::LogLaws::readable_log))]
pub fn tables_of(log: &[Event]) -> [Transaction; 64]
    requires { readable log.now ≡ true }
    ensures { AllTabled log.now result }
{
    let mut tables = [Transaction::BLANK; 64];
    for (i, e) in log.iter().enumerate() {
        let t = usize::from(e.transaction);
        tables[t] = tables[t].noted(*e, i as u16);
    }
    tables
}

// How far each transaction of a log has come. A tally asks no more, and filling whole tables took it two fifths longer.
#[tactic(auto, using(crate::proofs::LogLaws::readable_log))]
pub fn ranks_of(log: &[Event]) -> [Rank; 64]
    requires { readable log.now ≡ true }
    ensures { Ranked log.now result }
{
    let mut ranks = [Rank::Live; 64];
    for e in log {
        let t = usize::from(e.transaction);
        ranks[t] = rank_with(ranks[t], *e);
    }
    ranks
}
