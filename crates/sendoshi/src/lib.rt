// The library that other programs call: numbers and slices only, and every answer as one u64,
// code × 2^32 + place (include/sendoshi.h). Proved of each function, for every call: its result, in
// every case of the answer, and every lent buffer afterwards, by one equation over specs/Calls; and that
// the number, taken apart as the header says, is what the answer says.
// Assumed of the caller, since no function can test it: each slice is a pointer that is good for its
// length, nothing else refers to what is written, start values are a pointer to 32 numbers and a note is one
// to 3.
#![tactic(auto)]

ghost use Rattle.std.specs.Prelude.{◌≡◌};
ghost use Rattle.event_log.specs.Columns.{columns};
ghost use Rattle.reader.specs.Reading.{read_answer, said as read_said};
ghost use Rattle.writer.specs.Writing.{written_answer, said as written_said};
ghost use Rattle.finder.specs.Answer.{found_answer, said as found_said};
ghost use Rattle.scan.specs.Answer.{scan_answer, said as scan_said};
ghost use Rattle.marking.specs.Answer.{verdict_answer, said as check_said};
ghost use Rattle.straighten.specs.Answer.{straightened_answer, said as straight_said};
ghost use Rattle.counts.specs.Answer.{transactions_answer, store_reads_answer, tally_answer, count_said, tally_said};
ghost use Rattle.notes.specs.Notes.{next_note, said as note_said};
ghost use Rattle.codes.specs.Decoded.{decoded, no_value, one_value, two_values, four_values, always, never, of_marking};
ghost use Rattle.sendoshi.specs.Calls.{
  filled,
  starts_after,
  put,
  put_both,
  read_call,
  write_call,
  find_call,
  scan_call,
  check_call,
  straighten_call,
  transactions_call,
  store_reads_call,
  tally_call,
  told,
  note_after,
  next_note_call,
  AnswerFits,
};

use codes::{
    check_code, found_code, note_code, number_code, read_code, scan_code, straighten_code,
    tally_code,
};
use event_log::columns::{Columns, History};
use events::refusal::Refusal;
use notes::{Note, next_note};
use reader::HistoryRead;

// The history that a call is lent. Each call has its columns one by one, as C has them.
fn history_of<'a>(
    edition: u16,
    starts: &'a [u32; 32],
    kinds: &'a [u16],
    transactions: &'a [u16],
    registers: &'a [u16],
    values: &'a [u32],
    threads: &'a [u16],
    count: u32,
) -> History<'a>
    ensures { result ≡ record {
      edition = edition;
      starts = starts.entry;
      columns = record {
        kinds = kinds.entry;
        transactions = transactions.entry;
        registers = registers.entry;
        values = values.entry;
        threads = threads.entry;
      };
      count = count;
    } }
{
    History {
        edition,
        starts,
        columns: Columns {
            kinds,
            transactions,
            registers,
            values,
            threads,
        },
        count: count as usize,
    }
}

// Hands over the start values, all 32, of a history that was read; a refusal leaves the lent ones as
// they are.
fn hand_over(answer: Result<HistoryRead, Refusal>, starts: &mut [u32; 32])
    ensures { starts.new ≡ starts_after answer starts.old }
{
    if let Ok(read) = answer {
        let given = read.starts;
        *starts = given;
    }
}

// Hands over the three numbers of a note; where there is none the lent ones stay as they are.
fn tell_note(answer: Option<Note>, note: &mut [u32; 3])
    requires { AnswerFits answer }
    ensures { note.new ≡ note_after answer note.old }
{
    if let Some(next) = answer {
        *note = [next.events as u32, next.start as u32, next.size as u32];
    }
}

// Reads a history's file into the start values and the columns: the edition and the event count, or the
// question and the byte.
pub fn sendoshi_read(
    file: &[u8],
    starts: &mut [u32; 32],
    kinds: &mut [u16],
    transactions: &mut [u16],
    registers: &mut [u16],
    values: &mut [u32],
    threads: &mut [u16],
) -> u64
    ensures threads_after { filled result starts.new (columns kinds.new transactions.new registers.new
        values.new threads.new) ≡ read_call file.now starts.old
        (columns kinds.old transactions.old registers.old values.old
        threads.old) }
    ensures result_value { decoded two_values always result ≡ read_said (read_answer file.now
        (columns kinds.old transactions.old registers.old values.old
        threads.old)).result }
{
    let answer = reader::read_history(file, kinds, transactions, registers, values, threads);
    hand_over(answer, starts);
    read_code(answer)
}

// Writes the first `count` events as a file: its length, or the question and the event.
pub fn sendoshi_write(
    edition: u16,
    starts: &[u32; 32],
    kinds: &[u16],
    transactions: &[u16],
    registers: &[u16],
    values: &[u32],
    threads: &[u16],
    count: u32,
    output: &mut [u8],
) -> u64
    ensures output_after { put result output.new ≡ write_call edition starts.now
        (columns kinds.now transactions.now registers.now values.now
        threads.now) count
        output.old }
    ensures result_value { decoded one_value never result ≡ written_said (written_answer edition starts.now
        (columns kinds.now transactions.now registers.now values.now
        threads.now) count
        output.old).result }
{
    let history = history_of(
        edition,
        starts,
        kinds,
        transactions,
        registers,
        values,
        threads,
        count,
    );
    number_code(writer::write_history(&history, output))
}

// Writes the lowest marking of the first `prefix` of the first `count` events: its length, or none, or
// the question and the event.
pub fn sendoshi_find(
    edition: u16,
    starts: &[u32; 32],
    kinds: &[u16],
    transactions: &[u16],
    registers: &[u16],
    values: &[u32],
    threads: &[u16],
    count: u32,
    prefix: u32,
    output: &mut [u8],
) -> u64
    ensures output_after { put result output.new ≡ find_call edition starts.now
        (columns kinds.now transactions.now registers.now values.now
        threads.now) count prefix
        output.old }
    ensures result_value { decoded one_value never result ≡ found_said (found_answer edition starts.now
        (columns kinds.now transactions.now registers.now values.now
        threads.now) count prefix
        output.old).result }
{
    let history = history_of(
        edition,
        starts,
        kinds,
        transactions,
        registers,
        values,
        threads,
        count,
    );
    found_code(finder::find_marking(&history, prefix as usize, output))
}

// Judges the prefixes of the first `count` events: opaque, or the cause and the event, or the question
// and the event.
pub fn sendoshi_scan(
    edition: u16,
    starts: &[u32; 32],
    kinds: &[u16],
    transactions: &[u16],
    registers: &[u16],
    values: &[u32],
    threads: &[u16],
    count: u32,
) -> u64
    ensures value { result ≡ scan_call edition starts.now (columns kinds.now transactions.now
        registers.now values.now threads.now) count }
    ensures result_value { decoded no_value never result ≡ scan_said (scan_answer edition starts.now
        (columns kinds.now transactions.now registers.now values.now
        threads.now) count) }
{
    let history = history_of(
        edition,
        starts,
        kinds,
        transactions,
        registers,
        values,
        threads,
        count,
    );
    scan_code(scan::scan_history(&history))
}

// Checks a marking file against the first `count` events: accepted, or the rule with its event and
// transaction, or the question with its event or byte.
pub fn sendoshi_check(
    edition: u16,
    starts: &[u32; 32],
    kinds: &[u16],
    transactions: &[u16],
    registers: &[u16],
    values: &[u32],
    threads: &[u16],
    count: u32,
    file: &[u8],
) -> u64
    ensures value { result ≡ check_call edition starts.now (columns kinds.now transactions.now
        registers.now values.now threads.now) count file.now }
    ensures result_value { decoded no_value of_marking result ≡ check_said (verdict_answer edition starts.now
        (columns kinds.now transactions.now registers.now values.now
        threads.now) count
        file.now) }
{
    let history = history_of(
        edition,
        starts,
        kinds,
        transactions,
        registers,
        values,
        threads,
        count,
    );
    check_code(marking::check::check_marking(&history, file))
}

// Straightens the read points of a marking file of the first `count` events, into output and list: how
// many points were moved and the length of the marking, or the rule that is broken wherever the points
// are with its event and transaction, or the question with its event or byte.
pub fn sendoshi_straighten(
    edition: u16,
    starts: &[u32; 32],
    kinds: &[u16],
    transactions: &[u16],
    registers: &[u16],
    values: &[u32],
    threads: &[u16],
    count: u32,
    file: &[u8],
    output: &mut [u8],
    moved: &mut [u32],
) -> u64
    ensures moved_after { put_both result output.new moved.new ≡ straighten_call edition starts.now
        (columns kinds.now transactions.now registers.now values.now
        threads.now) count
        file.now output.old moved.old }
    ensures result_value { decoded two_values of_marking result ≡ straight_said (straightened_answer edition starts.now
        (columns kinds.now transactions.now registers.now values.now
        threads.now) count
        file.now output.old moved.old).result }
{
    let history = history_of(
        edition,
        starts,
        kinds,
        transactions,
        registers,
        values,
        threads,
        count,
    );
    straighten_code(straighten::straighten(&history, file, output, moved))
}

// Counts the transactions that begin in the first `count` events, or gives the question and the event.
pub fn sendoshi_transactions(
    edition: u16,
    starts: &[u32; 32],
    kinds: &[u16],
    transactions: &[u16],
    registers: &[u16],
    values: &[u32],
    threads: &[u16],
    count: u32,
) -> u64
    ensures value { result ≡ transactions_call edition starts.now (columns kinds.now transactions.now
        registers.now values.now threads.now) count }
    ensures result_value { decoded one_value never result ≡ count_said (transactions_answer edition starts.now
        (columns kinds.now transactions.now registers.now values.now
        threads.now) count) }
{
    let history = history_of(
        edition,
        starts,
        kinds,
        transactions,
        registers,
        values,
        threads,
        count,
    );
    number_code(counts::count_transactions(&history))
}

// Counts the store reads of the first `count` events, or gives the question and the event.
pub fn sendoshi_store_reads(
    edition: u16,
    starts: &[u32; 32],
    kinds: &[u16],
    transactions: &[u16],
    registers: &[u16],
    values: &[u32],
    threads: &[u16],
    count: u32,
) -> u64
    ensures value { result ≡ store_reads_call edition starts.now (columns kinds.now transactions.now
        registers.now values.now threads.now) count }
    ensures result_value { decoded one_value never result ≡ count_said (store_reads_answer edition starts.now
        (columns kinds.now transactions.now registers.now values.now
        threads.now) count) }
{
    let history = history_of(
        edition,
        starts,
        kinds,
        transactions,
        registers,
        values,
        threads,
        count,
    );
    number_code(counts::count_store_reads(&history))
}

// Counts the committed, aborted, pending and live transactions of the first `count` events, or gives
// the question and the event.
pub fn sendoshi_tally(
    edition: u16,
    starts: &[u32; 32],
    kinds: &[u16],
    transactions: &[u16],
    registers: &[u16],
    values: &[u32],
    threads: &[u16],
    count: u32,
) -> u64
    ensures value { result ≡ tally_call edition starts.now (columns kinds.now transactions.now
        registers.now values.now threads.now) count }
    ensures result_value { decoded four_values never result ≡ tally_said (tally_answer edition starts.now
        (columns kinds.now transactions.now registers.now values.now
        threads.now) count) }
{
    let history = history_of(
        edition,
        starts,
        kinds,
        transactions,
        registers,
        values,
        threads,
        count,
    );
    tally_code(counts::tally_transactions(&history))
}

// Finds the first note of a history's file whose record begins at the byte `from` or behind it, and tells how
// many events are before it, where its bytes begin and how many they are; or there is none.
pub fn sendoshi_next_note(file: &[u8], from: u32, note: &mut [u32; 3]) -> u64
    ensures note_after { told result note.new ≡ next_note_call file.now from note.old }
    ensures result_value { decoded no_value never result ≡ note_said (next_note file.now from) }
{
    let answer = notes::next_note(file, from as usize);
    tell_note(answer, note);
    note_code(answer)
}
