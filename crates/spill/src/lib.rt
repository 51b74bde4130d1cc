// A log put back into columns, for the doors that hand a history out.
#![tactic(auto)]

ghost use Rattle.std.specs.Prelude.{◌≡◌, length};
ghost use Rattle.event_log.specs.Columns.{columns, hold, spilled};

use event_log::columns::Columns;
use events::event::Event;

// Copies the events of a log into the first entries of the columns, if each column has an entry for
// each event, and says whether they have; the other entries stay as they were.
pub fn spill(
    log: &[Event],
    kinds: &mut [u16],
    transactions: &mut [u16],
    registers: &mut [u16],
    values: &mut [u32],
    threads: &mut [u16],
) -> bool
    ensures value { result ≡ hold (columns kinds.old transactions.old registers.old values.old
        threads.old) (length log.now) }
    ensures threads_after { columns kinds.new transactions.new registers.new values.new
        threads.new ≡ spilled log.now
        (columns kinds.old transactions.old registers.old values.old
        threads.old) }
{
    let columns = Columns {
        kinds,
        transactions,
        registers,
        values,
        threads,
    };
    if !columns.hold(log.len()) {
        return false;
    }
    for (i, e) in log.iter().enumerate() {
        kinds[i] = e.kind;
        transactions[i] = e.transaction;
        registers[i] = e.register;
        values[i] = e.value;
        threads[i] = e.thread;
    }
    true
}
