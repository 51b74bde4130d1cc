// Rules A and B, of transactions.
ghost use Rattle.std.specs.Prelude.{◌≡◌, ℕ, ◌≤◌, ◌<◌, get_or, eqb};
ghost use Rattle.rules.specs.Orders.{broken, allows_by, outcome_by, pair_by, real_time_by};

use crate::first::first_failing;
use links::tables::{Rank, Transaction};

// Does the rank of a transaction allow the outcome?
fn allowed(rank: Rank, outcome: u8) -> bool
    ensures { result ≡ allows_by rank (eqb outcome 1) }
{
    match rank {
        Rank::Committed => outcome == 1,
        Rank::Pending => true,
        Rank::Aborted | Rank::Live => outcome != 1,
    }
}

// Rule A at t: its outcome is allowed.
fn outcome_kept(
    tables: &[Transaction; 64],
    place: &[u16; 64],
    outcomes: &[u8; 64],
    t: usize,
) -> bool
    requires t_bound { t < 64 }
    requires t_bound_2 { get_or place.now t 0 < 64 }
    ensures { result ≡ outcome_by tables.now place.now outcomes.now t }
{
    allowed(tables[t].rank, outcomes[usize::from(place[t])])
}

// The first transaction that breaks rule A.
pub fn rule_a(
    tables: &[Transaction; 64],
    place: &[u16; 64],
    outcomes: &[u8; 64],
    begun: usize,
) -> Option<usize>
    requires begun_bound { begun ≤ 64 }
    requires by_index { (t : ℕ) → get_or place.now t 0 < 64 }
    ensures { result ≡ broken (outcome_by tables.now place.now outcomes.now) begun }
{
    first_failing(begun, |t| outcome_kept(tables, place, outcomes, t))
}

// Is t, if it ended before u began, placed before u?
fn pair_kept(tables: &[Transaction; 64], place: &[u16; 64], u: usize, t: usize) -> bool
    requires u_bound { u < 64 }
    requires t_bound { t < 64 }
    ensures { result ≡ pair_by tables.now place.now u t }
{
    match (tables[t].ended, tables[u].began) {
        (Some(end), Some(begin)) => begin <= end || place[t] < place[u],
        _ => true,
    }
}

// Rule B at u: what ended before u began is placed before u.
fn real_time_kept(tables: &[Transaction; 64], place: &[u16; 64], begun: usize, u: usize) -> bool
    requires begun_bound { begun ≤ 64 }
    requires u_bound { u < 64 }
    ensures { result ≡ real_time_by tables.now place.now begun u }
{
    first_failing(begun, |t| pair_kept(tables, place, u, t)).is_none()
}

// The first transaction that breaks rule B.
pub fn rule_b(tables: &[Transaction; 64], place: &[u16; 64], begun: usize) -> Option<usize>
    requires { begun ≤ 64 }
    ensures { result ≡ broken (real_time_by tables.now place.now begun) begun }
{
    first_failing(begun, |u| real_time_kept(tables, place, begun, u))
}
