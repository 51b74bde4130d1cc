// The lowest justification of a log: the first completion that the search finds over the table of facts of its events.
#![tactic(auto)]

ghost use Rattle.std.specs.Prelude.{◌≡◌, cond, ◌≤◌, eqb};
ghost use Rattle.std.proofs.Math.Option.{none};
ghost use Rattle.events.specs.Events.{begins};
ghost use Rattle.event_log.specs.Starts.{start_of};
ghost use Rattle.opacity.specs.Lowest.{lowest_of};
ghost use Rattle.places.specs.Tree.{first_whole, Answers, EndAsks};
ghost use Rattle.lowest.specs.Order.{constraints_of, Judged, order_of};

use events::event::Event;
use tables::Tables;

// The first completion that the tables of so many transactions allow, all of them before the end, as the search answers it.
pub fn complete(starts: &[u32; 32], tables: &Tables, transactions: usize) -> Option<u64>
    requires transactions_bound { transactions ≤ 10 }
    requires end_asks { EndAsks tables.now.facts transactions }
    ensures { Answers transactions result (cond (eqb tables.now.contradictory 0)
        (first_whole (constraints_of starts.now tables.now) transactions) none) }
{
    if tables.contradictory == 0 {
        search::find(starts, &tables.facts, transactions)
    } else {
        None
    }
}

// The lowest justification of a log in which so many transactions begin, as the search answers it.
pub fn find_order(starts: &[u32; 32], log: &[Event], begun: usize) -> Option<u64>
    requires judged { Judged log.now }
    requires begun_value { begun ≡ begins log.now }
    ensures { order_of log.now result ≡ lowest_of (start_of starts.now) log.now }
{
    let mut tables = Tables::new();
    for e in log {
        tables.step(*e);
    }
    complete(starts, &tables, begun)
}
