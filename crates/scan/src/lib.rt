// The scan: the prefixes of a history, by rising length, until one has no justification.
#![tactic(auto)]

ghost use Rattle.std.specs.Prelude.{◌≡◌, true};
ghost use Rattle.events.specs.Questions.{readable};
ghost use Rattle.event_log.specs.Lent.{columns_of};
ghost use Rattle.event_log.specs.Starts.{start_of};
ghost use Rattle.opacity.specs.Scan.{scan, cause, fault};
ghost use Rattle.lowest.specs.Order.{Judged};
ghost use Rattle.scan.specs.Answer.{scan_answer};
ghost use Rattle.scan.specs.Logs.{scan_of};

use event_log::admit::{ask, judged};
use event_log::columns::History;
use event_log::rows::transactions_begun;
use events::event::{Event, is_abort, is_begin, is_commit, is_quiet, is_read};
use events::refusal::Refusal;
use events::state::begun_after;
use opacity::verdict::{Cause, Fault, Scanned};
use places::facts::SEARCHED;
use places::lookup::Constraints;
use tables::Tables;

// The cause that an event is: a read returned or a lone read, a commit, an abort, or any other, a lone write among them.
#[tactic(auto, unfolding(opacity::specs::Scan::cause))]
fn cause_of(e: Event) -> Cause
    ensures { result ≡ cause e }
{
    if is_read(e) {
        Cause::Read
    } else if is_begin(e) {
        Cause::Other
    } else if is_commit(e) {
        Cause::Commit
    } else if is_abort(e) {
        Cause::Abort
    } else {
        Cause::Other
    }
}

// The answer where the prefix that ends with this event is the first without a justification.
fn faulted(event: usize, e: Event) -> Scanned
    ensures { result ≡ fault event (cause e) }
{
    Err(Fault {
        event,
        cause: cause_of(e),
    })
}

// The prefixes of a log of at most ten transactions, by rising length: the tables grow by one event each time, and n counts the
// transactions begun. The order that justifies a prefix is kept for the next where it justifies that too; only where it does not is an
// order searched for anew. A quiet event asks nothing of the order and changes none of these.
fn scan_prefixes(starts: &[u32; 32], log: &[Event]) -> Scanned
    requires { Judged log.now }
    ensures { result ≡ scan (start_of starts.now) log.now }
{
    let mut tables = Tables::new();
    let mut n: usize = 0;
    let mut order: u64 = 1;
    for (i, e) in log.iter().enumerate() {
        if is_quiet(*e) {
            continue;
        }
        let kept = witness::carry(&Constraints::new(starts, &tables.facts), order, n, *e);
        tables.step(*e);
        n = begun_after(n, *e);
        let next = match kept {
            None => lowest::complete(starts, &tables, n),
            Some(_) => kept,
        };
        let Some(found) = next else {
            return faulted(i, *e);
        };
        order = found;
    }
    Ok(())
}

// Question 31, and then the prefixes of a log.
pub fn scan_log(starts: &[u32; 32], log: &[Event]) -> Result<Scanned, Refusal>
    requires { readable log.now ≡ true }
    ensures { result ≡ scan_of starts.now log.now }
{
    ask(transactions_begun(log) <= SEARCHED, 31, log.len())?;
    Ok(scan_prefixes(starts, log))
}

// Is every prefix of a history justified? If not, the last event of the first that is not, and the cause. Each prefix keeps the edition
// and the start values of its history.
pub fn scan_history(history: &History) -> Result<Scanned, Refusal>
    ensures { result ≡ scan_answer history.now.edition history.now.starts.now (columns_of history.now.columns) history.now.count }
{
    judged(history, |log| scan_log(history.starts, log))?
}
