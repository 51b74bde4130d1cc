// The library's calls as C sees them: one export for each, which hands over to the call of that name and states its clauses again
// (include/sendoshi.h).
#![tactic(auto)]

ghost use Rattle.std.specs.Prelude.{◌≡◌};
ghost use Rattle.event_log.specs.Columns.{columns};
ghost use Rattle.reader.specs.Reading.{read_answer, said as read_said};
ghost use Rattle.writer.specs.Writing.{written_answer, said as written_said};
ghost use Rattle.finder.specs.Answer.{found_answer, said as found_said};
ghost use Rattle.scan.specs.Answer.{scan_answer, said as scan_said};
ghost use Rattle.marking.specs.Answer.{verdict_answer, said as check_said};
ghost use Rattle.straighten.specs.Answer.{straightened_answer, said as straight_said};
ghost use Rattle.counts.specs.Answer.{transactions_answer, store_reads_answer, tally_answer, count_said, tally_said};
ghost use Rattle.notes.specs.Notes.{next_note, said as note_said};
ghost use Rattle.codes.specs.Decoded.{decoded, no_value, one_value, two_values, four_values, always, never, of_marking};
ghost use Rattle.sendoshi.specs.Calls.{
  filled,
  starts_after,
  put,
  put_both,
  read_call,
  write_call,
  find_call,
  scan_call,
  check_call,
  straighten_call,
  transactions_call,
  store_reads_call,
  tally_call,
  told,
  note_after,
  next_note_call,
  AnswerFits,
};

// Reads a history's file into the start values and the columns: the edition and the event count, or the
// question and the byte.
#[unsafe(no_mangle)]
pub extern "C" fn sendoshi_read(
    file: &[u8],
    starts: &mut [u32; 32],
    kinds: &mut [u16],
    transactions: &mut [u16],
    registers: &mut [u16],
    values: &mut [u32],
    threads: &mut [u16],
) -> u64
    ensures threads_after { filled result starts.new (columns kinds.new transactions.new registers.new
        values.new threads.new) ≡ read_call file.now starts.old
        (columns kinds.old transactions.old registers.old values.old
        threads.old) }
    ensures result_value { decoded two_values always result ≡ read_said (read_answer file.now
        (columns kinds.old transactions.old registers.old values.old
        threads.old)).result }
{
    sendoshi::sendoshi_read(
        file,
        starts,
        kinds,
        transactions,
        registers,
        values,
        threads,
    )
}

// Writes the first `count` events as a file: its length, or the question and the event.
#[unsafe(no_mangle)]
pub extern "C" fn sendoshi_write(
    edition: u16,
    starts: &[u32; 32],
    kinds: &[u16],
    transactions: &[u16],
    registers: &[u16],
    values: &[u32],
    threads: &[u16],
    count: u32,
    output: &mut [u8],
) -> u64
    ensures output_after { put result output.new ≡ write_call edition starts.now
        (columns kinds.now transactions.now registers.now values.now
        threads.now) count
        output.old }
    ensures result_value { decoded one_value never result ≡ written_said (written_answer edition starts.now
        (columns kinds.now transactions.now registers.now values.now
        threads.now) count
        output.old).result }
{
    sendoshi::sendoshi_write(
        edition,
        starts,
        kinds,
        transactions,
        registers,
        values,
        threads,
        count,
        output,
    )
}

// Writes the lowest marking of the first `prefix` of the first `count` events: its length, or none, or
// the question and the event.
#[unsafe(no_mangle)]
pub extern "C" fn sendoshi_find(
    edition: u16,
    starts: &[u32; 32],
    kinds: &[u16],
    transactions: &[u16],
    registers: &[u16],
    values: &[u32],
    threads: &[u16],
    count: u32,
    prefix: u32,
    output: &mut [u8],
) -> u64
    ensures output_after { put result output.new ≡ find_call edition starts.now
        (columns kinds.now transactions.now registers.now values.now
        threads.now) count prefix
        output.old }
    ensures result_value { decoded one_value never result ≡ found_said (found_answer edition starts.now
        (columns kinds.now transactions.now registers.now values.now
        threads.now) count prefix
        output.old).result }
{
    sendoshi::sendoshi_find(
        edition,
        starts,
        kinds,
        transactions,
        registers,
        values,
        threads,
        count,
        prefix,
        output,
    )
}

// Judges the prefixes of the first `count` events: opaque, or the cause and the event, or the question
// and the event.
#[unsafe(no_mangle)]
pub extern "C" fn sendoshi_scan(
    edition: u16,
    starts: &[u32; 32],
    kinds: &[u16],
    transactions: &[u16],
    registers: &[u16],
    values: &[u32],
    threads: &[u16],
    count: u32,
) -> u64
    ensures value { result ≡ scan_call edition starts.now (columns kinds.now transactions.now
        registers.now values.now threads.now) count }
    ensures result_value { decoded no_value never result ≡ scan_said (scan_answer edition starts.now
        (columns kinds.now transactions.now registers.now values.now
        threads.now) count) }
{
    sendoshi::sendoshi_scan(
        edition,
        starts,
        kinds,
        transactions,
        registers,
        values,
        threads,
        count,
    )
}

// Checks a marking file against the first `count` events: accepted, or the rule with its event and
// transaction, or the question with its event or byte.
#[unsafe(no_mangle)]
pub extern "C" fn sendoshi_check(
    edition: u16,
    starts: &[u32; 32],
    kinds: &[u16],
    transactions: &[u16],
    registers: &[u16],
    values: &[u32],
    threads: &[u16],
    count: u32,
    file: &[u8],
) -> u64
    ensures value { result ≡ check_call edition starts.now (columns kinds.now transactions.now
        registers.now values.now threads.now) count file.now }
    ensures result_value { decoded no_value of_marking result ≡ check_said (verdict_answer edition starts.now
        (columns kinds.now transactions.now registers.now values.now
        threads.now) count
        file.now) }
{
    sendoshi::sendoshi_check(
        edition,
        starts,
        kinds,
        transactions,
        registers,
        values,
        threads,
        count,
        file,
    )
}

// Straightens the read points of a marking file of the first `count` events, into output and list: how
// many points were moved and the length of the marking, or the rule that is broken wherever the points
// are with its event and transaction, or the question with its event or byte.
#[unsafe(no_mangle)]
pub extern "C" fn sendoshi_straighten(
    edition: u16,
    starts: &[u32; 32],
    kinds: &[u16],
    transactions: &[u16],
    registers: &[u16],
    values: &[u32],
    threads: &[u16],
    count: u32,
    file: &[u8],
    output: &mut [u8],
    moved: &mut [u32],
) -> u64
    ensures moved_after { put_both result output.new moved.new ≡ straighten_call edition starts.now
        (columns kinds.now transactions.now registers.now values.now
        threads.now) count
        file.now output.old moved.old }
    ensures result_value { decoded two_values of_marking result ≡ straight_said (straightened_answer edition starts.now
        (columns kinds.now transactions.now registers.now values.now
        threads.now) count
        file.now output.old moved.old).result }
{
    sendoshi::sendoshi_straighten(
        edition,
        starts,
        kinds,
        transactions,
        registers,
        values,
        threads,
        count,
        file,
        output,
        moved,
    )
}

// Counts the transactions that begin in the first `count` events, or gives the question and the event.
#[unsafe(no_mangle)]
pub extern "C" fn sendoshi_transactions(
    edition: u16,
    starts: &[u32; 32],
    kinds: &[u16],
    transactions: &[u16],
    registers: &[u16],
    values: &[u32],
    threads: &[u16],
    count: u32,
) -> u64
    ensures value { result ≡ transactions_call edition starts.now (columns kinds.now transactions.now
        registers.now values.now threads.now) count }
    ensures result_value { decoded one_value never result ≡ count_said (transactions_answer edition starts.now
        (columns kinds.now transactions.now registers.now values.now
        threads.now) count) }
{
    sendoshi::sendoshi_transactions(
        edition,
        starts,
        kinds,
        transactions,
        registers,
        values,
        threads,
        count,
    )
}

// Counts the store reads of the first `count` events, or gives the question and the event.
#[unsafe(no_mangle)]
pub extern "C" fn sendoshi_store_reads(
    edition: u16,
    starts: &[u32; 32],
    kinds: &[u16],
    transactions: &[u16],
    registers: &[u16],
    values: &[u32],
    threads: &[u16],
    count: u32,
) -> u64
    ensures value { result ≡ store_reads_call edition starts.now (columns kinds.now transactions.now
        registers.now values.now threads.now) count }
    ensures result_value { decoded one_value never result ≡ count_said (store_reads_answer edition starts.now
        (columns kinds.now transactions.now registers.now values.now
        threads.now) count) }
{
    sendoshi::sendoshi_store_reads(
        edition,
        starts,
        kinds,
        transactions,
        registers,
        values,
        threads,
        count,
    )
}

// Counts the committed, aborted, pending and live transactions of the first `count` events, or gives
// the question and the event.
#[unsafe(no_mangle)]
pub extern "C" fn sendoshi_tally(
    edition: u16,
    starts: &[u32; 32],
    kinds: &[u16],
    transactions: &[u16],
    registers: &[u16],
    values: &[u32],
    threads: &[u16],
    count: u32,
) -> u64
    ensures value { result ≡ tally_call edition starts.now (columns kinds.now transactions.now
        registers.now values.now threads.now) count }
    ensures result_value { decoded four_values never result ≡ tally_said (tally_answer edition starts.now
        (columns kinds.now transactions.now registers.now values.now
        threads.now) count) }
{
    sendoshi::sendoshi_tally(
        edition,
        starts,
        kinds,
        transactions,
        registers,
        values,
        threads,
        count,
    )
}

// Finds the first note of a history's file whose record begins at the byte `from` or behind it, and tells how
// many events are before it, where its bytes begin and how many they are; or there is none.
#[unsafe(no_mangle)]
pub extern "C" fn sendoshi_next_note(file: &[u8], from: u32, note: &mut [u32; 3]) -> u64
    ensures note_after { told result note.new ≡ next_note_call file.now from note.old }
    ensures result_value { decoded no_value never result ≡ note_said (next_note file.now from) }
{
    sendoshi::sendoshi_next_note(file, from, note)
}
