// The finder: the lowest justification of a prefix, as a marking.
#![tactic(auto)]

ghost use Rattle.std.specs.Prelude.{◌≡◌, ◌≤◌, ◌<◌, true, leb, length, Ok};
ghost use Rattle.events.specs.Events.{begins};
ghost use Rattle.events.specs.Questions.{readable};
ghost use Rattle.event_log.specs.Lent.{columns_of};
ghost use Rattle.event_log.specs.Rows.{IsRoom};
ghost use Rattle.event_log.specs.Starts.{start_of};
ghost use Rattle.lowest.specs.Order.{Judged};
ghost use Rattle.finder.specs.Answer.{marking_size, lowest_marking, gives, decided, found_answer};
ghost use Rattle.finder.specs.Logs.{find_of};

use event_log::admit::{admit, ask};
use event_log::columns::History;
use event_log::rows::{BLANK, MOST, SHORT, transactions_begun};
use event_log::starts::is_admitted;
use events::event::Event;
use events::refusal::Refusal;
use found::write_order;
use lowest::find_order;
use places::facts::SEARCHED;
use reads::{FEW_TRANSACTIONS, count_by};
use records::record::Record;

// The length of the lowest marking of a log, if it has one, put into an output that has room for any.
fn find_lowest(starts: &[u32; 32], log: &[Event], begun: usize, output: &mut [u8]) -> Option<usize>
    requires judged { Judged log.now }
    requires begun_value { begun ≡ begins log.now }
    requires log_in_bounds { marking_size log.now ≤ length output.old }
    ensures { gives (Ok result) output.new
        ≡ decided (Ok tt) (lowest_marking (start_of starts.now) log.now) output.old }
{
    let order = find_order(starts, log, begun)?;
    Some(write_order(log, order, begun, output))
}

// Question 32: is there room for the marking of a log in which so many transactions begin? Each event could be a store read, and
// where there is room for so many points nothing is counted.
fn has_room(log: &[Event], begun: usize, room: usize) -> bool
    requires judged { Judged log.now }
    requires begun_value { begun ≡ begins log.now }
    ensures { result ≡ leb (marking_size log.now) room }
{
    let places = Record::WHOLE_HEAD + Record::WHOLE_PLACE * begun;
    places + Record::WHOLE_POINT * log.len() <= room
        || places + Record::WHOLE_POINT * count_by::<FEW_TRANSACTIONS>(log) <= room
}

// Questions 31 and 32, with the count as their event, and then the lowest marking, of a log.
pub fn find_log(
    starts: &[u32; 32],
    log: &[Event],
    count: usize,
    output: &mut [u8],
) -> Result<Option<usize>, Refusal>
    requires { readable log.now ≡ true }
    ensures { gives result output.new
        ≡ find_of starts.now log.now count output.old }
{
    let begun = transactions_begun(log);
    ask(begun <= SEARCHED, 31, count)?;
    ask(has_room(log, begun, output.len()), 32, count)?;
    Ok(find_lowest(starts, log, begun, output))
}

// What is found of a prefix that is no longer than its history, by way of so many rows for the events.
fn find_within<const N: usize>(
    history: &History,
    prefix: usize,
    output: &mut [u8],
) -> Result<Option<usize>, Refusal>
    requires rows { IsRoom history.now.count N }
    requires few { N ≤ 2048 }
    requires inside { prefix ≤ history.now.count }
    ensures { gives result output.new
        ≡ found_answer history.now.edition history.now.starts.now (columns_of history.now.columns) history.now.count prefix
        output.old }
{
    let mut rows = [BLANK; N];
    admit(history, &mut rows)?;
    find_log(history.starts, &rows[..prefix], history.count, output)
}

// The length of the lowest marking of the first `prefix` events of a history, if they have one, written from the output's first byte. The
// prefix keeps the edition and the start values of its history. 18 comes before the events' own questions, so it is asked first, and of a
// prefix that is longer 17 and 3 before it. A short history does not pay for the rows of a long one.
pub fn find_marking(
    history: &History,
    prefix: usize,
    output: &mut [u8],
) -> Result<Option<usize>, Refusal>
    ensures { gives result output.new
        ≡ found_answer history.now.edition history.now.starts.now (columns_of history.now.columns) history.now.count prefix
        output.old }
{
    let count = history.count;
    if prefix > count {
        ask(history.columns.hold(count), 17, count)?;
        ask(is_admitted(history.edition, history.starts), 3, count)?;
        return Err(Refusal {
            question: 18,
            at: count,
        });
    }
    if count <= SHORT {
        find_within::<SHORT>(history, prefix, output)
    } else {
        find_within::<MOST>(history, prefix, output)
    }
}
