// What the search is told of a prefix: a table of facts taken from its events, one event at a time.
#![tactic(auto)]

ghost use Rattle.std.specs.Prelude.{◌≡◌, ◌+◌, ◌<◌};
ghost use Rattle.tables.specs.Tables.{Tabled, clashes, expected, contradicts, reads_store, joined, next, empty};
ghost use Rattle.tables.specs.Tables.{after_with, rule_with, allowed_with, read_with, written_with};

use events::event::{
    Event, asks_commit, is_abort, is_begin, is_commit, is_end, is_quiet, is_read, is_write,
};
use lists::numbers::stored;
use places::facts::{
    ABORTED, AFTER, ALLOWED, COMMITTED, EITHER, END, Facts, READS, REQUIRED, WRITTEN,
};
use places::sets;

// What a prefix says of its transactions: the table of facts that the search is told, and as sets of one bit each the transactions that
// have ended, and those with a read that is wrong wherever they are placed. The loops hold it and lend it to each step, so that it is not
// copied with an event.
#[derive(Clone, Copy)]
pub struct Tables {
    pub ended: u64,
    pub facts: [Facts; 11],
    pub contradictory: u64,
}

// Is there an entry, and is it another than v?
fn differs(old: u64, v: u64) -> bool
    ensures { result ≡ clashes old v }
{
    old != 0 && old != v
}

// The set, with t in it if it joins.
#[tactic(auto, unfolding(crate::specs::Tables::joined))]
fn join(set: u64, joins: bool, t: u16) -> u64
    requires { t < 10 }
    ensures { result ≡ joined set joins t }
{
    if joins {
        sets::with(set, usize::from(t))
    } else {
        set
    }
}

// What a read by the event's transaction of its register returns, as far as its own events say: its last write there, or what its
// store reads there returned; 0 if they say nothing. Kept as a number that may be none, and no Option: that is how a row of u64 holds
// it, with `written_of` and `required_of` in the definitions.
#[tactic(auto, unfolding(crate::specs::Tables::expected))]
fn expected_at(facts: &[Facts; 11], e: Event) -> u64
    requires { Tabled e }
    ensures { result ≡ expected facts.now e }
{
    let row = &facts[usize::from(e.transaction)];
    let r = usize::from(e.register);
    let own = row[WRITTEN + r];
    if own != 0 { own } else { row[REQUIRED + r] }
}

// Is the event a read that is wrong wherever its transaction is placed? It returns another value than its own write, or than a store
// read of the register before it.
fn read_contradicts(facts: &[Facts; 11], e: Event) -> bool
    requires { Tabled e }
    ensures { result ≡ contradicts facts.now e }
{
    is_read(e) && differs(expected_at(facts, e), stored(e.value))
}

// Is the event a read of a register that its transaction has not written?
fn reads_store(facts: &[Facts; 11], e: Event) -> bool
    requires { Tabled e }
    ensures { result ≡ reads_store facts.now e }
{
    is_read(e) && facts[usize::from(e.transaction)][WRITTEN + usize::from(e.register)] == 0
}

// A read of the store joins the registers that its transaction reads, and requires what it returns.
#[tactic(auto, using(crate::proofs::TableLaws::put_both), unfolding(crate::specs::Tables::put_if))]
fn note_read(facts: &mut [Facts; 11], e: Event)
    requires { Tabled e }
    ensures { facts.new ≡ read_with facts.old e }
{
    if reads_store(facts, e) {
        let row = &mut facts[usize::from(e.transaction)];
        let r = usize::from(e.register);
        row[READS] = sets::with(row[READS], r);
        row[REQUIRED + r] = stored(e.value);
    }
}

// The last write of a transaction to a register.
#[tactic(auto, unfolding(crate::specs::Tables::put_if))]
fn note_write(facts: &mut [Facts; 11], e: Event)
    requires { Tabled e }
    ensures { facts.new ≡ written_with facts.old e }
{
    if is_write(e) {
        let row = &mut facts[usize::from(e.transaction)];
        row[WRITTEN + usize::from(e.register)] = stored(e.value);
    }
}

// Those that have ended come before one that begins, and that comes before the end.
#[tactic(auto, unfolding(crate::specs::Tables::put_if))]
fn note_begin(facts: &mut [Facts; 11], ended: u64, e: Event)
    requires { Tabled e }
    ensures { facts.new ≡ after_with ended facts.old e }
{
    if is_begin(e) {
        let t = usize::from(e.transaction);
        facts[END][AFTER] = sets::with(facts[END][AFTER], t);
        facts[t][AFTER] = ended;
    }
}

// The rule of an outcome with one event more: the outcome is the recorded one, and free after a commit called and unanswered.
#[tactic(auto, unfolding(crate::specs::Tables::rule_with))]
fn rule_with(rule: u64, e: Event) -> u64
    ensures { result ≡ rule_with rule e }
{
    if is_commit(e) {
        COMMITTED
    } else if is_abort(e) {
        ABORTED
    } else if asks_commit(e) {
        EITHER
    } else {
        rule
    }
}

// The rule of the outcome of the event's transaction.
#[tactic(auto, unfolding(crate::specs::Tables::put_if))]
fn note_outcome(facts: &mut [Facts; 11], e: Event)
    requires { Tabled e }
    ensures { facts.new ≡ allowed_with facts.old e }
{
    let row = &mut facts[usize::from(e.transaction)];
    row[ALLOWED] = rule_with(row[ALLOWED], e);
}

impl Tables {
    // The tables before any event.
    #[tactic(auto, unfolding(crate::specs::Tables::empty))]
    pub fn new() -> Tables
        ensures { result ≡ empty }
    {
        Tables {
            ended: 0,
            facts: [[0; 72]; 11],
            contradictory: 0,
        }
    }

    // One event more, whatever that is.
    fn note(&mut self, e: Event)
        requires { Tabled e }
        ensures { self.new ≡ next self.old e }
    {
        let wrong = read_contradicts(&self.facts, e);
        note_read(&mut self.facts, e);
        note_write(&mut self.facts, e);
        note_begin(&mut self.facts, self.ended, e);
        note_outcome(&mut self.facts, e);
        self.ended = join(self.ended, is_end(e), e.transaction);
        self.contradictory = join(self.contradictory, wrong, e.transaction);
    }

    // One event more. About half of the events are quiet: they change nothing here and are passed over in the loops themselves, into which
    // this is small enough to be taken.
    pub fn step(&mut self, e: Event)
        requires { Tabled e }
        ensures { self.new ≡ next self.old e }
    {
        if !is_quiet(e) {
            self.note(e);
        }
    }
}
