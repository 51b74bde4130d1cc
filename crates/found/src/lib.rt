// An order found, written as a marking: each store read has its point at its reader's place.
#![tactic(auto)]

ghost use Rattle.std.specs.Prelude.{◌≡◌, ◌^◌, ◌≤◌, ◌<◌, length};
ghost use Rattle.records.specs.Bytes.{over};
ghost use Rattle.events.specs.Events.{begins};
ghost use Rattle.places.specs.Places.{codes_of};
ghost use Rattle.lowest.specs.Order.{Judged};
ghost use Rattle.found.specs.Arrays.{found_bytes};

mod arrays;

use event_log::rows::{MOST, SHORT};
use events::event::Event;
use marking_writer::write_marking;
use places::state::codes_of;
use reads::{FEW_TRANSACTIONS, put_gaps};

// The marking of an order found, put into an output that has room for it, by way of a table of so many gaps.
fn write_found<const N: usize>(log: &[Event], codes: &[u8], output: &mut [u8]) -> usize
    requires judged { Judged log.now }
    requires codes_len { length codes.now ≡ begins log.now }
    requires room { (length log.now ≤ N) × (N < 2 ^ 62) }
    requires codes_in_bounds { length (found_bytes log.now codes.now) ≤ length output.old }
    ensures value { result ≡ length (found_bytes log.now codes.now) }
    ensures output_after { output.new ≡ over (found_bytes log.now codes.now) output.old }
{
    let placed = arrays::placed_by(codes);
    let place = arrays::readers_by(codes);
    let mut gaps = [0u16; N];
    put_gaps::<FEW_TRANSACTIONS>(log, &place, &mut gaps);
    write_marking(
        &placed.order,
        &placed.outcomes,
        codes.len(),
        &gaps[..log.len()],
        output,
    )
}

// The marking of the order that a search has answered, put into an output that has room for it. A short log gets a short table.
pub fn write_order(log: &[Event], order: u64, begun: usize, output: &mut [u8]) -> usize
    requires judged { Judged log.now }
    requires begun_value { begun ≡ begins log.now }
    requires order_in_bounds { length (found_bytes log.now (codes_of begun order)) ≤ length output.old }
    ensures value { result ≡ length (found_bytes log.now (codes_of begun order)) }
    ensures output_after { output.new
        ≡ over (found_bytes log.now (codes_of begun order)) output.old }
{
    let codes = codes_of(order, begun);
    if log.len() <= SHORT {
        write_found::<SHORT>(log, &codes[..begun], output)
    } else {
        write_found::<MOST>(log, &codes[..begun], output)
    }
}
