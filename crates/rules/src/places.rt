// Tables by place and by transaction of an order that stands in an array.
ghost use Rattle.std.specs.Prelude.{◌≡◌, ◌<◌, get_or};
ghost use Rattle.rules.specs.Orders.{Apart, Inverse, writer_at, Writers};

use links::tables::Transaction;

// The place of each transaction.
pub fn places_of(order: &[u16; 64], begun: usize) -> [u16; 64]
    requires { Apart order.now begun }
    ensures { Inverse order.now begun result }
{
    let mut place = [0u16; 64];
    for k in 0..begun {
        let t = usize::from(order[k]);
        place[t] = k as u16;
    }
    place
}

// What a place writes: the last write of its transaction, and the set of its registers.
#[derive(Clone, Copy)]
pub struct Writer {
    pub last: Option<u16>,
    pub registers: u32,
}

impl Writer {
    // Nothing is written.
    const NONE: Writer = Writer {
        last: None,
        registers: 0,
    };
}

// What the transaction at place k writes; nothing where that is not committed: an aborted transaction
// is no writer.
fn writer_at(order: &[u16; 64], outcomes: &[u8; 64], tables: &[Transaction; 64], k: usize) -> Writer
    requires k_bound { k < 64 }
    requires k_bound_2 { get_or order.now k 0 < 64 }
    ensures { result ≡ writer_at order.now outcomes.now tables.now k }
{
    if outcomes[k] != 1 {
        return Writer::NONE;
    }
    let of = tables[usize::from(order[k])];
    Writer {
        last: of.written,
        registers: of.registers,
    }
}

// The same of each place.
pub fn writers_of(
    order: &[u16; 64],
    outcomes: &[u8; 64],
    tables: &[Transaction; 64],
    begun: usize,
) -> [Writer; 64]
    requires { Apart order.now begun }
    ensures { Writers order.now outcomes.now tables.now begun result }
{
    let mut writers = [Writer::NONE; 64];
    for k in 0..begun {
        writers[k] = writer_at(order, outcomes, tables, k);
    }
    writers
}
