// A marking file, put into an output that has room for it: what the finder and the straightening write with. Proved of each
// function: the output afterwards, all of it, as one equation.
// Kept as an output with a place in it: `fields::put_u16` writes at a place, and each clause says from where on, `placed`.
#![tactic(auto)]

ghost use Rattle.std.specs.Prelude.{◌≡◌, ◌+◌, ◌*◌, ◌≤◌, length};
ghost use Rattle.records.specs.Bytes.{placed, over};
ghost use Rattle.opacity.specs.Arrays.{places_of};
ghost use Rattle.opacity.specs.Marking.{marking_head, place_bytes, point_bytes, flat};
ghost use Rattle.marking_writer.specs.Points.{is_gap, read_bytes};
ghost use Rattle.marking_writer.specs.Whole.{points_in, bytes_in};

use reads::NO_POINT;
use records::fields;
use records::record::Record;

// The head of a marking file.
fn put_head(out: &mut [u8])
    requires { 6 ≤ length out.old }
    ensures { out.new ≡ placed out.old 0 marking_head }
{
    fields::put_u16(out, 0, Record::HEAD_LENGTH);
    fields::put_u16(out, 2, Record::MARKING_HEAD);
    fields::put_u16(out, Record::FRAME, Record::EDITION);
}

// A transaction and its outcome.
fn put_place(out: &mut [u8], at: usize, transaction: u16, committed: bool)
    requires { at + 8 ≤ length out.old }
    ensures { out.new ≡ placed out.old at (place_bytes (record { transaction = transaction; committed = committed })) }
{
    fields::put_u16(out, at, Record::PLACE_LENGTH);
    fields::put_u16(out, at + 2, Record::PLACE);
    fields::put_u16(out, at + Record::FRAME, transaction);
    fields::put_u16(out, at + 6, u16::from(committed));
}

// A read point: the event of a store read, and its gap.
fn put_point(out: &mut [u8], at: usize, event: u32, gap: u16)
    requires { at + 10 ≤ length out.old }
    ensures { out.new ≡ placed out.old at (point_bytes (record { event = event; gap = gap })) }
{
    fields::put_u16(out, at, Record::POINT_LENGTH);
    fields::put_u16(out, at + 2, Record::POINT);
    fields::put_u32(out, at + Record::FRAME, event);
    fields::put_u16(out, at + 8, gap);
}

// The point of an event, if it has one; and where the next one goes.
fn put_read(out: &mut [u8], at: usize, event: u32, gap: u16) -> usize
    requires { at + length (read_bytes (is_gap gap) event gap) ≤ length out.old }
    ensures out_after { out.new ≡ placed out.old at (read_bytes (is_gap gap) event gap) }
    ensures value { result ≡ at + length (read_bytes (is_gap gap) event gap) }
{
    if gap == NO_POINT {
        at
    } else {
        put_point(out, at, event, gap);
        at + Record::WHOLE_POINT
    }
}

// The first places of an order with their outcomes, 0 aborted and 1 committed, from byte 6 on.
fn put_places(order: &[u16; 64], outcomes: &[u8; 64], begun: usize, out: &mut [u8])
    requires begun_bound { begun ≤ 64 }
    requires begun_in_bounds { 6 + 8 * begun ≤ length out.old }
    ensures { out.new
        ≡ placed out.old 6 (flat place_bytes (places_of order.now outcomes.now begun)) }
{
    for (k, (transaction, outcome)) in order.iter().zip(outcomes.iter()).take(begun).enumerate() {
        let at = Record::WHOLE_HEAD + Record::WHOLE_PLACE * k;
        put_place(out, at, *transaction, *outcome == 1);
    }
}

// The points of a table of gaps by event, from byte `from` on; and where they end.
fn put_points(gaps: &[u16], from: usize, out: &mut [u8]) -> usize
    requires gaps_len_bound { length gaps.now ≤ 2048 }
    requires gaps_in_bounds { from + length (points_in gaps.now (length gaps.now)) ≤ length out.old }
    ensures out_after { out.new ≡ placed out.old from (points_in gaps.now (length gaps.now)) }
    ensures value { result ≡ from + length (points_in gaps.now (length gaps.now)) }
{
    let mut at = from;
    for (i, gap) in gaps.iter().enumerate() {
        at = put_read(out, at, i as u32, *gap);
    }
    at
}

// A marking, from the output's first byte; its length. By place, order and outcomes of the transactions begun; by event, the gaps
// of the points.
pub fn write_marking(
    order: &[u16; 64],
    outcomes: &[u8; 64],
    begun: usize,
    gaps: &[u16],
    out: &mut [u8],
) -> usize
    requires begun_bound { (begun ≤ 64) × (length gaps.now ≤ 2048) }
    requires gaps_in_bounds { length (bytes_in order.now outcomes.now begun gaps.now) ≤ length out.old }
    ensures out_after { out.new
        ≡ over (bytes_in order.now outcomes.now begun gaps.now) out.old }
    ensures value { result ≡ length (bytes_in order.now outcomes.now begun gaps.now) }
{
    put_head(out);
    put_places(order, outcomes, begun, out);
    put_points(gaps, Record::WHOLE_HEAD + Record::WHOLE_PLACE * begun, out)
}
