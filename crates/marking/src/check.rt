// The checker: the questions of the history, those of the marking file, and the verdict.
ghost use Rattle.std.specs.Prelude.{◌≡◌, ◌≤◌, true, length};
ghost use Rattle.events.specs.Questions.{readable};
ghost use Rattle.event_log.specs.Lent.{columns_of};
ghost use Rattle.event_log.specs.Starts.{start_of};
ghost use Rattle.marking_reader.specs.File.{known, file_read};
ghost use Rattle.marking.specs.Answer.{ruling, verdict_answer};

use event_log::admit::judged;
use event_log::columns::History;
use event_log::rows::{MOST, SHORT, transactions_begun};
use events::event::Event;
use events::refusal::Refusal;
use links::writes::links;
use marking_reader::read::read_marking;
use marking_reader::step::MarkedLog;
use opacity::verdict::Verdict;
use reads::{NO_POINT, own_writes};
use rules::judge::judge;

// Why nothing is checked: a question refuses the history, with its event, or the marking, with its byte.
#[derive(Clone, Copy)]
pub enum Unchecked {
    HistoryRefused(Refusal),
    MarkingRefused(Refusal),
}

// Checks a marking file against the readable history in a log, by way of tables of so many entries.
fn check_within<const N: usize>(
    starts: &[u32; 32],
    log: &[Event],
    file: &[u8],
) -> Result<Verdict, Refusal>
    requires log_value { readable log.now ≡ true }
    requires room { length log.now ≤ N }
    requires few { N ≤ 2048 }
    ensures { result ≡ ruling (start_of starts.now) log.now
        (file_read (known log.now) file.now) }
{
    let mut own = [0u16; N];
    own_writes(log, &mut own);
    let marked = MarkedLog {
        log,
        own: &own,
        begun: transactions_begun(log),
    };
    let mut order = [0u16; 64];
    let mut outcomes = [0u8; 64];
    let mut gaps = [NO_POINT; N];
    read_marking(&marked, file, &mut order, &mut outcomes, &mut gaps)?;
    let mut link = [None; N];
    links(log, &mut link);
    let verdict = judge(starts, log, &own, &link, &order, &outcomes, &gaps);
    Ok(verdict)
}

// Checks a marking file against the readable history in a log: the verdict of the rules, or the question
// that refuses the marking, with its byte. A short history gets short tables.
pub fn check_log(starts: &[u32; 32], log: &[Event], file: &[u8]) -> Result<Verdict, Refusal>
    requires { readable log.now ≡ true }
    ensures { result ≡ ruling (start_of starts.now) log.now
        (file_read (known log.now) file.now) }
{
    if log.len() <= SHORT {
        check_within::<SHORT>(starts, log, file)
    } else {
        check_within::<MOST>(starts, log, file)
    }
}

// Checks a marking file against a history: the questions of the history, those of the marking, and the rules.
pub fn check_marking(history: &History, file: &[u8]) -> Result<Verdict, Unchecked>
    ensures { result ≡ verdict_answer history.now.edition history.now.starts.now
        (columns_of history.now.columns) history.now.count file.now }
{
    let ruling = judged(history, |log| check_log(history.starts, log, file));
    ruling
        .map_err(Unchecked::HistoryRefused)?
        .map_err(Unchecked::MarkingRefused)
}
