// The marking reader.
ghost use Rattle.std.specs.Prelude.{◌≡◌, ◌+◌, ◌≤◌, Ok, length};
ghost use Rattle.events.specs.Questions.{refusal};
ghost use Rattle.marking_reader.specs.File.{known, head_questions, opening, file_read};
ghost use Rattle.marking_reader.specs.State.{Fresh, read_as, Kept, said_at};

use crate::step::{MarkedLog, MarkingStep, Progress};
use event_log::admit::ask;
use events::refusal::Refusal;
use records::fields::u16_at;
use records::record::{Found, Record, record_at};

// Question 21 of a whole first record.
fn ask_head(file: &[u8], r: Record) -> Result<(), Refusal>
    requires { r.start + r.size ≤ length file.now }
    ensures { result ≡ said_at (refusal (head_questions file.now r)) 0 }
{
    let end = r.start + r.size;
    let is_head = r.kind == Record::MARKING_HEAD
        && r.size == Record::HEAD_SIZE
        && u16_at(&file[r.start..end], 0) == Record::EDITION;
    ask(is_head, 21, 0)
}

// 1, 2 and 21.
fn ask_opening(file: &[u8]) -> Result<(), Refusal>
    ensures { result ≡ said_at (opening file.now) 0 }
{
    ask(file.len() <= Record::FILE_LIMIT, 1, 0)?;
    match record_at(file, 0) {
        Found::Whole(r) => ask_head(file, r),
        Found::Short => Err(Refusal { question: 2, at: 0 }),
        Found::End => Err(Refusal {
            question: 21,
            at: 0,
        }),
    }
}

// Reads a marking file for the history in a log, in one pass over the file. If no question says no, the
// arrays hold the marking: the transactions in the order of their places, their outcomes, and the gap of
// each store read by event. Else the answer is the question, with its byte.
// Kept as a loop: records have lengths of their own, and each is read for what the ones before it said.
// Kept as numbers: `judge` and the writer of markings take outcomes and gaps as such (`reads::NO_POINT` for none).
pub fn read_marking(
    marked: &MarkedLog,
    file: &[u8],
    order: &mut [u16; 64],
    outcomes: &mut [u8; 64],
    gaps: &mut [u16],
) -> Result<(), Refusal>
    requires fresh { Fresh order.old outcomes.old gaps.old }
    requires log_in_bounds { length marked.now.log.now ≤ length gaps.old }
    ensures result_after { read_as marked.now.log.now order.new outcomes.new gaps.new result
        ≡ file_read (known marked.now.log.now) file.now }
    ensures kept { result ≡ Ok tt → Kept marked.now.log.now
        order.new outcomes.new gaps.new }
{
    ask_opening(file)?;
    let mut progress = Progress::new();
    loop {
        match marked.step_at(&progress, gaps, file)? {
            MarkingStep::Placed {
                transaction,
                outcome,
                end,
            } => {
                order[progress.filled] = transaction;
                // Kept as a cast: question 25 says that it is 0 or 1.
                outcomes[progress.filled] = outcome as u8;
                progress.used[usize::from(transaction)] = true;
                progress.filled += 1;
                progress.at = end;
            }
            MarkingStep::Pointed { event, gap, end } => {
                gaps[event] = gap;
                progress.next = event + 1;
                progress.at = end;
            }
            MarkingStep::Finished => return Ok(()),
        }
    }
}
