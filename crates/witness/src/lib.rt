// The witness: an order of places that justifies the prefix passed, as the search answers it, carried on to the next event.
#![tactic(auto)]

ghost use Rattle.std.specs.Prelude.{◌≡◌, true, cond, not, ◌<◌, ◌^◌};
ghost use Rattle.events.specs.Events.{is_begin, is_commit};
ghost use Rattle.event_log.specs.Starts.{start_of};
ghost use Rattle.opacity.specs.Justification.{outcome};
ghost use Rattle.opacity.specs.Carry.{seen, carries};
ghost use Rattle.places.specs.Places.{codes_of, decode, writes_in};
ghost use Rattle.places.specs.State.{Ordered};
ghost use Rattle.witness.specs.Witness.{code_of, carried_code, kept, Carryable};

use events::event::{Event, is_begin, is_commit, is_end, is_read};
use places::facts::{ABORTED, COMMITTED, WRITTEN};
use places::lookup::Constraints;
use places::state::{CODES, place_of};

// What the transaction of an event reads in its register: what it wrote there last, or what the register holds before its place.
fn seen_by(constraints: &Constraints, order: u64, count: usize, e: Event) -> u64
    requires ordered { Ordered count order }
    requires transaction_lt_count { e.transaction < count }
    requires register_bound { e.register < 32 }
    ensures { result ≡ seen (start_of constraints.now.starts.now) (writes_in constraints.now.facts.now)
        (decode (codes_of count order)) e.transaction e.register }
{
    let t = usize::from(e.transaction);
    let r = usize::from(e.register);
    let own = constraints.facts[t][WRITTEN + r];
    if own != 0 {
        return own - 1;
    }
    let p = place_of(order, count, t);
    constraints.content(p.placed, p.filled, r)
}

// Is the outcome of the event's transaction in the order the one that the event records?
fn ends_so(order: u64, count: usize, e: Event) -> bool
    requires ordered { Ordered count order }
    requires transaction_lt_count { e.transaction < count }
    ensures { result ≡ cond (is_commit e) (outcome e.transaction (decode (codes_of count order)))
        (not (outcome e.transaction (decode (codes_of count order)))) }
{
    let committed = place_of(order, count, usize::from(e.transaction)).committed;
    committed == is_commit(e)
}

// Does the order justify the event too: a lone read returns what its register holds after the order, any other read what its transaction
// reads there, and an end is the outcome that the order has. A call and the return of a write ask for nothing.
fn justifies(constraints: &Constraints, order: u64, count: usize, e: Event) -> bool
    requires { Carryable count order e }
    ensures { result ≡ carries (start_of constraints.now.starts.now) (writes_in constraints.now.facts.now)
        (decode (codes_of count order)) e }
{
    let value = u64::from(e.value);
    if is_begin(e) {
        !is_read(e) || constraints.content(order, count, usize::from(e.register)) == value
    } else if is_read(e) {
        seen_by(constraints, order, count, e) == value
    } else {
        !is_end(e) || ends_so(order, count, e)
    }
}

// The code of the place of a transaction that begins with this event, whose outcome is the one that the event records: a lone access
// commits at once.
fn code_of(e: Event) -> u64
    requires { e.transaction < 10 }
    ensures { result ≡ code_of e }
{
    let outcome = if is_commit(e) { COMMITTED } else { ABORTED };
    u64::from(e.transaction) * 2 + outcome
}

// The order with a transaction that begins, which comes last.
#[tactic(auto, unfolding(crate::specs::Witness::carried_code))]
fn carried(order: u64, e: Event) -> u64
    requires room { is_begin e ≡ true → order < 2 ^ 46 }
    requires transaction { e.transaction < 10 }
    ensures { result ≡ carried_code order e }
{
    if is_begin(e) {
        order * CODES + code_of(e)
    } else {
        order
    }
}

// The order with one event more, if it justifies that event too.
pub fn carry(constraints: &Constraints, order: u64, count: usize, e: Event) -> Option<u64>
    requires { Carryable count order e }
    ensures { result ≡ kept constraints.now.starts.now constraints.now.facts.now count order e }
{
    justifies(constraints, order, count, e).then_some(carried(order, e))
}
