// Every answer as one number, code × 2^32 + place: each function gives the number that specs/Codes gives
// for what its answer says. Required: each number of the answer stands where it is put. The library that
// other programs call, which tells these numbers, shows that of every answer (its proofs/Bounds).
#![tactic(auto)]

ghost use Rattle.std.specs.Prelude.{◌≡◌, ◌+◌, ◌≤◌};
ghost use Rattle.events.specs.Said.{broken};
ghost use Rattle.opacity.specs.Marking.{rule_number};
ghost use Rattle.opacity.specs.Scan.{cause_number};
ghost use Rattle.reader.specs.Reading.{said as read_said};
ghost use Rattle.finder.specs.Answer.{said as found_said};
ghost use Rattle.scan.specs.Answer.{scanned_said, said as scan_said};
ghost use Rattle.marking.specs.Answer.{verdict_said, said as check_said};
ghost use Rattle.straighten.specs.Answer.{said as straight_said};
ghost use Rattle.counts.specs.Answer.{count_said, tally_said};
ghost use Rattle.notes.specs.Notes.{said as note_said};
ghost use Rattle.codes.specs.Codes.{most, packed, halves, pair, coded, Halves, Known, Quarters};

use counts::tally::Tally;
use events::refusal::Refusal;
use marking::check::Unchecked;
use notes::Note;
use opacity::verdict::{Cause, Rule, Scanned, Verdict};
use reader::HistoryRead;
use straighten::{Straightened, Unstraightened};

// What a code is multiplied by.
const SHIFT: u64 = 4294967296;

// The code of none found, which is no question's.
const NONE: u32 = 100;

// Packs a code and a place into one number.
fn pack(code: u32, place: usize) -> u64
    requires { place ≤ most }
    ensures { result ≡ packed code place }
{
    u64::from(code) * SHIFT + place as u64
}

// Joins two numbers in one place.
fn join(high: usize, low: usize) -> usize
    requires { Halves high low }
    ensures { (result ≡ halves high low) × (result ≤ most) }
{
    high * 65536 + low
}

// Codes a refusal, whatever the answer: the question and what it is about.
fn refusal_code(refusal: Refusal) -> u64
    requires { refusal.at ≤ most }
    ensures { result ≡ packed refusal.question refusal.at }
{
    pack(u32::from(refusal.question), refusal.at)
}

// Gives the code of a rule.
fn rule_code(rule: Rule) -> u32
    ensures { result ≡ 200 + rule_number rule }
{
    match rule {
        Rule::A => 201,
        Rule::B => 202,
        Rule::C => 203,
        Rule::D => 204,
        Rule::E => 205,
    }
}

// Codes a broken rule: the place holds the event and the transaction.
fn broken_code(rule: Rule, event: usize, transaction: usize) -> u64
    requires { Halves event transaction }
    ensures { result ≡ coded (broken (rule_number rule) event transaction) }
{
    pack(rule_code(rule), join(event, transaction))
}

// Codes the reader's answer: the place of a history holds its edition and its event count.
pub fn read_code(answer: Result<HistoryRead, Refusal>) -> u64
    requires { Known (read_said answer) }
    ensures { result ≡ coded (read_said answer) }
{
    match answer {
        Ok(read) => pack(0, join(usize::from(read.edition), read.count)),
        Err(refusal) => refusal_code(refusal),
    }
}

// Codes an answer of one number, the length of what was written or a count.
pub fn number_code(answer: Result<usize, Refusal>) -> u64
    requires { Known (count_said answer) }
    ensures { result ≡ coded (count_said answer) }
{
    match answer {
        Ok(number) => pack(0, number),
        Err(refusal) => refusal_code(refusal),
    }
}

// Codes what the finder found: the length of a marking, or none.
fn lowest_code(found: Option<usize>) -> u64
    requires { Known (found_said (Ok found)) }
    ensures { result ≡ coded (found_said (Ok found)) }
{
    match found {
        Some(length) => pack(0, length),
        None => pack(NONE, 0),
    }
}

// Codes the finder's answer.
pub fn found_code(answer: Result<Option<usize>, Refusal>) -> u64
    requires { Known (found_said answer) }
    ensures { result ≡ coded (found_said answer) }
{
    match answer {
        Ok(found) => lowest_code(found),
        Err(refusal) => refusal_code(refusal),
    }
}

// Gives the code of a cause.
fn cause_code(cause: Cause) -> u32
    ensures { result ≡ 100 + cause_number cause }
{
    match cause {
        Cause::Read => 101,
        Cause::Commit => 102,
        Cause::Abort => 103,
        Cause::Other => 104,
    }
}

// Codes what the scan of a history says.
fn scanned_code(scanned: Scanned) -> u64
    requires { Known (scanned_said scanned) }
    ensures { result ≡ coded (scanned_said scanned) }
{
    match scanned {
        Ok(()) => pack(0, 0),
        Err(fault) => pack(cause_code(fault.cause), fault.event),
    }
}

// Codes the scan's answer.
pub fn scan_code(answer: Result<Scanned, Refusal>) -> u64
    requires { Known (scan_said answer) }
    ensures { result ≡ coded (scan_said answer) }
{
    match answer {
        Ok(scanned) => scanned_code(scanned),
        Err(refusal) => refusal_code(refusal),
    }
}

// Codes the verdict of the rules.
fn verdict_code(verdict: Verdict) -> u64
    requires { Known (verdict_said verdict) }
    ensures { result ≡ coded (verdict_said verdict) }
{
    match verdict {
        Verdict::Accepted => pack(0, 0),
        Verdict::Broken {
            rule,
            event,
            transaction,
        } => broken_code(rule, event, transaction),
    }
}

// Codes the question that no rule was reached for, about the history or about the marking.
fn unchecked_code(unchecked: Unchecked) -> u64
    requires { Known (check_said (Err unchecked)) }
    ensures { result ≡ coded (check_said (Err unchecked)) }
{
    match unchecked {
        Unchecked::HistoryRefused(refusal) => refusal_code(refusal),
        Unchecked::MarkingRefused(refusal) => refusal_code(refusal),
    }
}

// Codes the checker's answer.
pub fn check_code(answer: Result<Verdict, Unchecked>) -> u64
    requires { Known (check_said answer) }
    ensures { result ≡ coded (check_said answer) }
{
    match answer {
        Ok(verdict) => verdict_code(verdict),
        Err(unchecked) => unchecked_code(unchecked),
    }
}

// Codes why nothing was straightened: the rule that is broken, or the question.
fn unstraightened_code(unstraightened: Unstraightened) -> u64
    requires { Known (straight_said (Err unstraightened)) }
    ensures { result ≡ coded (straight_said (Err unstraightened)) }
{
    match unstraightened {
        Unstraightened::Broken {
            rule,
            event,
            transaction,
        } => broken_code(rule, event, transaction),
        Unstraightened::Refused(refusal) => refusal_code(refusal),
        Unstraightened::MarkingRefused(refusal) => refusal_code(refusal),
    }
}

// Codes the answer of the straightening: the place of a marking holds the number moved and the length.
pub fn straighten_code(answer: Result<Straightened, Unstraightened>) -> u64
    requires { Known (straight_said answer) }
    ensures { result ≡ coded (straight_said answer) }
{
    match answer {
        Ok(written) => pack(0, join(written.moved, written.length)),
        Err(unstraightened) => unstraightened_code(unstraightened),
    }
}

// Joins the four numbers of a tally in one place.
fn tally_place(tally: Tally) -> usize
    requires { Quarters tally.committed tally.aborted tally.pending tally.live }
    ensures { (result ≡ halves (pair tally.committed tally.aborted) (pair tally.pending tally.live)) ×
        (result ≤ most) }
{
    let high = tally.committed * 256 + tally.aborted;
    let low = tally.pending * 256 + tally.live;
    join(high, low)
}

// Codes the answer of the tally.
pub fn tally_code(answer: Result<Tally, Refusal>) -> u64
    requires { Known (tally_said answer) }
    ensures { result ≡ coded (tally_said answer) }
{
    match answer {
        Ok(tally) => pack(0, tally_place(tally)),
        Err(refusal) => refusal_code(refusal),
    }
}

// Codes the answer of the next note, whose numbers are told beside the code.
pub fn note_code(answer: Option<Note>) -> u64
    ensures { result ≡ coded (note_said answer) }
{
    if let Some(_) = answer {
        pack(0, 0)
    } else {
        pack(NONE, 0)
    }
}
