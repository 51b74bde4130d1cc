// The report on a capture, a history file and a marking file: every number of its lines, as one
// function of the bytes of the two files.
//
// The history is read once, into the rows of a log, and no event is asked again: counts, tally, marking
// and scan all go by that log. The rows stand in here, so that no buffer is lent and none can be too
// short.
#![tactic(auto)]

ghost use Rattle.std.specs.Prelude.{◌≡◌, ◌≤◌, true, length};
ghost use Rattle.events.specs.Questions.{readable};
ghost use Rattle.event_log.specs.Starts.{start_of};
ghost use Rattle.reader.specs.Reading.{RowsFor};
ghost use Rattle.capture.specs.Report.{counts_of, judged, report_on};

use counts::tally::{Tally, tally_of};
use event_log::rows::{BLANK, MOST, SHORT, transactions_begun};
use events::event::Event;
use events::refusal::Refusal;
use marking::check::check_log;
use opacity::verdict::{Scanned, Verdict};
use reader::{SHORT_FILE, read_log};
use reads::count_store_reads;
use scan::scan_log;

// The report's first line: events, transactions begun and store reads.
#[derive(Clone, Copy)]
pub struct Counts {
    pub events: usize,
    pub transactions: usize,
    pub reads: usize,
}

// The report on a history that is not refused: the four lines, the third of which is the checker's ruling and
// the last the scan's answer.
#[derive(Clone, Copy)]
pub struct Report {
    pub counts: Counts,
    pub tally: Tally,
    pub marking: Result<Verdict, Refusal>,
    pub opacity: Result<Scanned, Refusal>,
}

// Counts what the first line says of a log.
fn counts_of(log: &[Event]) -> Counts
    requires { readable log.now ≡ true }
    ensures { result ≡ counts_of log.now }
{
    let begun = transactions_begun(log);
    let reads = count_store_reads(log);
    Counts {
        events: log.len(),
        transactions: begun,
        reads,
    }
}

// Judges a log and a marking file, for the four lines.
fn judge_log(starts: &[u32; 32], log: &[Event], file: &[u8]) -> Report
    requires { readable log.now ≡ true }
    ensures { result ≡ judged (start_of starts.now) log.now file.now }
{
    let counts = counts_of(log);
    let tally = tally_of(log);
    let marking = check_log(starts, log, file);
    let opacity = scan_log(starts, log);
    Report {
        counts,
        tally,
        marking,
        opacity,
    }
}

// Reports by way of so many rows, which serve the history file.
fn report_by<const N: usize>(history: &[u8], marking: &[u8]) -> Result<Report, Refusal>
    requires rows { RowsFor (length history.now) N }
    requires few { N ≤ 2048 }
    ensures { result ≡ report_on history.now marking.now }
{
    let mut rows = [BLANK; N];
    let read = read_log(history, &mut rows)?;
    Ok(judge_log(&read.starts, &rows[..read.count], marking))
}

// Reports on a history file and a marking file, or refuses the history with its question and byte. A short file
// does not pay for the rows of a long one.
pub fn report_on(history: &[u8], marking: &[u8]) -> Result<Report, Refusal>
    ensures { result ≡ report_on history.now marking.now }
{
    if history.len() <= SHORT_FILE {
        report_by::<SHORT>(history, marking)
    } else {
        report_by::<MOST>(history, marking)
    }
}
