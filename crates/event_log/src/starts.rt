// The edition of a history and its start values: what each of the 32 registers holds before any
// writer. Question 3 of the calls that are told them.
ghost use Rattle.std.specs.Prelude.{◌≡◌};
ghost use Rattle.event_log.specs.Starts.{all_zero, admits};

use records::record::Record;

// Does every register start at 0?
fn all_zero(starts: &[u32; 32]) -> bool
    ensures { result ≡ all_zero starts.now }
{
    starts.iter().all(|start| *start == 0)
}

// Question 3: edition 2, or edition 1, in which every register starts at 0.
pub fn is_admitted(edition: u16, starts: &[u32; 32]) -> bool
    ensures { result ≡ admits edition starts.now }
{
    match edition {
        Record::STARTS_EDITION => true,
        Record::EDITION => all_zero(starts),
        _ => false,
    }
}
