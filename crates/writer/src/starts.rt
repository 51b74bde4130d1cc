// The start records of a history: one for each register that does not start at 0, by rising register.
// In edition 1 every register starts at 0, and there is none.
ghost use Rattle.std.specs.Prelude.{◌≡◌, ℕ, ◌+◌, ◌≤◌, length};
ghost use Rattle.records.specs.Bytes.{placed};
ghost use Rattle.writer.specs.Writing.{start_record, starts_to};

use events::bodies::put_access;
use records::fields::put_u16;
use records::record::Record;

// How many bytes the start record of a value has.
fn start_length(value: u32) -> usize
    ensures { ((k : ℕ) → result ≡ length (start_record k value)) × (result ≤ 10) }
{
    if value == 0 {
        0
    } else {
        Record::FRAME + Record::START_SIZE
    }
}

// The byte behind the head and the start records: where the events begin.
pub fn starts_end(starts: &[u32; 32]) -> usize
    ensures { result ≡ 6 + length (starts_to starts.now 32) }
{
    let mut at = Record::WHOLE_HEAD;
    for value in starts {
        at += start_length(*value);
    }
    at
}

// The start record of a register, unless it starts at 0.
fn put_start(out: &mut [u8], at: usize, register: u16, value: u32)
    requires { at + length (start_record register value) ≤ length out.old }
    ensures { out.new ≡ placed out.old at (start_record register value) }
{
    if value == 0 {
        return;
    }
    put_u16(out, at, Record::START_LENGTH);
    put_u16(out, at + 2, Record::START);
    put_access(out, at + Record::FRAME, register, value);
}

// The start records, behind the head.
pub fn put_starts(starts: &[u32; 32], out: &mut [u8])
    requires { 6 + length (starts_to starts.now 32) ≤ length out.old }
    ensures { out.new ≡ placed out.old 6 (starts_to starts.now 32) }
{
    let mut at = Record::WHOLE_HEAD;
    for (r, value) in starts.iter().enumerate() {
        put_start(out, at, r as u16, *value);
        at += start_length(*value);
    }
}
