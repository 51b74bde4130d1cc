// The verdict: the first rule that is broken, from A to E, with its event and transaction.
ghost use Rattle.std.specs.Prelude.{◌≡◌, true, ℕ, ◌≤◌, ◌<◌, length, get_or};
ghost use Rattle.events.specs.Events.{event_at, by, is_begin};
ghost use Rattle.event_log.specs.Starts.{start_of};
ghost use Rattle.opacity.specs.declared.verdict.Verdict.TheVariants.{Broken};
ghost use Rattle.opacity.specs.Marking.{last_event, begin_of, verdict};
ghost use Rattle.opacity.specs.Transactions.{own_right};
ghost use Rattle.reads.specs.Own.{OwnWrites};
ghost use Rattle.rules.specs.Orders.{broken};
ghost use Rattle.rules.specs.Judge.{content, Judgeable, places_verdict, and_then};
ghost use Rattle.rules.specs.Points.{reads_by};

use crate::first::first_failing;
use crate::order::{rule_a, rule_b};
use crate::places::{places_of, writers_of};
use crate::walk::Points;
use event_log::rows::transactions_begun;
use events::event::{Event, is_begin};
use links::tables::{Transaction, tables_of};
use opacity::verdict::{Rule, Verdict};
use reads::own_right;

// The last event of a transaction, or 0.
fn last_event(log: &[Event], t: usize) -> usize
    ensures { result ≡ last_event log.now t }
{
    let mut last = 0;
    for (i, e) in log.iter().enumerate() {
        if usize::from(e.transaction) == t {
            last = i;
        }
    }
    last
}

// Does the event begin the transaction?
fn begins(e: Event, t: usize) -> bool
    ensures { result ≡ by is_begin t e }
{
    usize::from(e.transaction) == t && is_begin(e)
}

// The event that begins a transaction, or 0.
fn begin_of(log: &[Event], t: usize) -> usize
    ensures { result ≡ begin_of log.now t }
{
    for (i, e) in log.iter().enumerate() {
        if begins(*e, t) {
            return i;
        }
    }
    0
}

// The verdict that an event breaks a rule.
fn broken_at(rule: Rule, log: &[Event], event: usize) -> Verdict
    requires { event < length log.now }
    ensures { result ≡ Broken rule event (event_at log.now event).transaction }
{
    Verdict::Broken {
        rule,
        event,
        transaction: usize::from(log[event].transaction),
    }
}

// The first event that breaks rule C.
fn first_not_own(log: &[Event], own: &[u16]) -> Option<usize>
    requires { OwnWrites log.now own.now }
    ensures { result ≡ broken (own_right log.now) (length log.now) }
{
    first_failing(log.len(), |i| own_right(log, own, i))
}

// Rules C to E.
fn judge_reads(points: &Points, own: &[u16]) -> Verdict
    requires { OwnWrites points.now.log.now own.now }
    ensures { result ≡ reads_by points.now }
{
    if let Some(c) = first_not_own(points.log, own) {
        return broken_at(Rule::C, points.log, c);
    }
    if let Some(d) = points.first_broken(Rule::D) {
        return broken_at(Rule::D, points.log, d);
    }
    if let Some(e) = points.first_broken(Rule::E) {
        return broken_at(Rule::E, points.log, e);
    }
    Verdict::Accepted
}

// Rules A and B.
pub fn judge_places(
    log: &[Event],
    tables: &[Transaction; 64],
    place: &[u16; 64],
    outcomes: &[u8; 64],
    begun: usize,
) -> Verdict
    requires begun_bound { begun ≤ 64 }
    requires by_index { (t : ℕ) → get_or place.now t 0 < 64 }
    ensures { result ≡ places_verdict log.now tables.now place.now outcomes.now begun }
{
    if let Some(t) = rule_a(tables, place, outcomes, begun) {
        return Verdict::Broken {
            rule: Rule::A,
            event: last_event(log, t),
            transaction: t,
        };
    }
    if let Some(u) = rule_b(tables, place, begun) {
        return Verdict::Broken {
            rule: Rule::B,
            event: begin_of(log, u),
            transaction: u,
        };
    }
    Verdict::Accepted
}

// What rules A and B say, or else what C to E say.
pub fn judge_after(placed: Verdict, points: &Points, own: &[u16]) -> Verdict
    requires { OwnWrites points.now.log.now own.now }
    ensures { result ≡ and_then placed (reads_by points.now) }
{
    match placed {
        Verdict::Accepted => judge_reads(points, own),
        Verdict::Broken { .. } => placed,
    }
}

// The verdict on a readable marking of a readable history, whose own writes are found and whose
// writes are linked.
pub fn judge(
    starts: &[u32; 32],
    log: &[Event],
    own: &[u16],
    link: &[Option<u16>],
    order: &[u16; 64],
    outcomes: &[u8; 64],
    gaps: &[u16],
) -> Verdict
    requires own_writes { OwnWrites log.now own.now }
    requires judgeable { Judgeable log.now link.now order.now outcomes.now gaps.now }
    ensures { result ≡ verdict (start_of starts.now) log.now
        (content log.now order.now outcomes.now gaps.now) }
{
    let begun = transactions_begun(log);
    let place = places_of(order, begun);
    let tables = tables_of(log);
    let writers = writers_of(order, outcomes, &tables, begun);
    let placed = judge_places(log, &tables, &place, outcomes, begun);
    let points = Points {
        starts,
        log,
        link,
        writers: &writers,
        place: &place,
        gaps,
    };
    judge_after(placed, &points, own)
}
