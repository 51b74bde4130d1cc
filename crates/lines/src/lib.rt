// The text of the report on a capture, line by line: bytes in a buffer that has room for the lines of
// any report, with as many digits as a number may have. Proved of each function: what the text has
// afterwards, and how many bytes were added at most; and of each output, all of it, as one equation.
#![tactic(auto)]

ghost use Rattle.std.specs.Prelude.{◌≡◌, [], ◌∷◌, ◌++◌, ◌+◌, ◌≤◌, ℕ, List, length, take};
ghost use Rattle.records.specs.Bytes.{over};
ghost use Rattle.opacity.specs.Scan.{cause_number};
ghost use Rattle.capture.specs.Report.{report_on};
ghost use Rattle.lines.specs.Text.{text, decimal, Adds, Put};
ghost use Rattle.lines.specs.Lines.{counts_line, tally_line, refused_line, letter, broken_line, verdict_line, marking_line};
ghost use Rattle.lines.specs.Lines.{faulted_line, unscanned_line, scanned_line, opacity_line, lines};

use capture::{Counts, Report, report_on};
use counts::tally::Tally;
use events::refusal::Refusal;
use opacity::verdict::{Cause, Rule, Scanned, Verdict};
use std::marker::Model;

// A text that grows. It has room for any report, whose longest has four lines, of at most 89, 115, 75
// and 64 bytes; what goes beyond them would be left out.
// Kept as bytes, with no `Display`: no clause of `write!` says that it succeeds, and `put_report` always does.
#[derive(Drop)]
struct Text {
    bytes: [u8; 343],
    length: usize,
}

impl Model for Text {
    ghost Value = { List ℕ };

    ghost view = { λ t. take t.length t.bytes };

    ghost invariant = { λ t. t.length ≤ 343 };
}

impl Text {
    fn new() -> Text
        ensures { result ≡ [] }
    {
        Text {
            bytes: [0; 343],
            length: 0,
        }
    }

    // Puts words.
    fn put(&mut self, words: &[u8])
        ensures { Adds (length words.now) self.old self.new words.now }
    {
        let room = self.bytes.len() - self.length;
        let n = room.min(words.len());
        let end = self.length + n;
        self.bytes[self.length..end].copy_from_slice(&words[..n]);
        self.length = end;
    }

    // Puts a number in base ten: a number of 64 bits has at most 20 digits.
    fn put_number(&mut self, n: usize)
        ensures { Adds 20 self.old self.new (decimal n) }
    {
        let mut digits = [0u8; 20];
        let k = io::decimal(n as u64, &mut digits);
        self.put(&digits[..k]);
    }

    // Puts words and the number after them.
    fn put_field(&mut self, words: &[u8], n: usize)
        ensures { Adds (length words.now + 20) self.old self.new (words.now ++ decimal n) }
    {
        self.put(words);
        self.put_number(n);
    }

    // Puts the line on the counts, as "events 10 transactions 2 reads 2".
    fn put_counts(&mut self, counts: Counts)
        ensures { Adds 89 self.old self.new (counts_line counts) }
    {
        self.put_field(b"events ", counts.events);
        self.put_field(b" transactions ", counts.transactions);
        self.put_field(b" reads ", counts.reads);
        self.put(b"\n");
    }

    // Puts the line on the tally, as "committed 1 aborted 0 pending 0 live 1".
    fn put_tally(&mut self, tally: Tally)
        ensures { Adds 115 self.old self.new (tally_line tally) }
    {
        self.put_field(b"committed ", tally.committed);
        self.put_field(b" aborted ", tally.aborted);
        self.put_field(b" pending ", tally.pending);
        self.put_field(b" live ", tally.live);
        self.put(b"\n");
    }

    // Puts the line on a file that is refused, as "history refused 5 byte 6".
    fn put_refused(&mut self, file: &[u8], refusal: Refusal)
        ensures { Adds (length file.now + 56) self.old self.new
            (refused_line file.now refusal.question refusal.at) }
    {
        self.put(file);
        self.put_field(b" refused ", usize::from(refusal.question));
        self.put_field(b" byte ", refusal.at);
        self.put(b"\n");
    }

    // Puts the line on a broken rule, as "marking rule D event 9 transaction 1".
    fn put_broken(&mut self, rule: Rule, event: usize, transaction: usize)
        ensures { Adds 75 self.old self.new (broken_line rule event transaction) }
    {
        self.put(b"marking rule ");
        self.put(&[letter_of(rule)]);
        self.put_field(b" event ", event);
        self.put_field(b" transaction ", transaction);
        self.put(b"\n");
    }

    // Puts the line on a faulted history, as "opaque no event 9 cause 1".
    fn put_faulted(&mut self, event: usize, cause: usize)
        ensures { Adds 64 self.old self.new (faulted_line event cause) }
    {
        self.put_field(b"opaque no event ", event);
        self.put_field(b" cause ", cause);
        self.put(b"\n");
    }

    // Puts the line on a history that is too large for the scan, as "opaque refused 31".
    fn put_unscanned(&mut self, refusal: Refusal)
        ensures { Adds 36 self.old self.new (unscanned_line refusal.question) }
    {
        self.put_field(b"opaque refused ", usize::from(refusal.question));
        self.put(b"\n");
    }

    // Puts the line on the verdict of the rules.
    fn put_verdict(&mut self, verdict: Verdict)
        ensures { Adds 75 self.old self.new (verdict_line verdict) }
    {
        match verdict {
            Verdict::Accepted => self.put(b"marking accepted\n"),
            Verdict::Broken {
                rule,
                event,
                transaction,
            } => self.put_broken(rule, event, transaction),
        }
    }

    // Puts the line on the marking.
    fn put_marking(&mut self, marking: Result<Verdict, Refusal>)
        ensures { Adds 75 self.old self.new (marking_line marking) }
    {
        match marking {
            Ok(verdict) => self.put_verdict(verdict),
            Err(refusal) => self.put_refused(b"marking", refusal),
        }
    }

    // Puts the line on what the scan says.
    fn put_scanned(&mut self, scanned: Scanned)
        ensures { Adds 64 self.old self.new (scanned_line scanned) }
    {
        match scanned {
            Ok(()) => self.put(b"opaque yes\n"),
            Err(fault) => self.put_faulted(fault.event, number_of(fault.cause)),
        }
    }

    // Puts the line on opacity.
    fn put_opacity(&mut self, opacity: Result<Scanned, Refusal>)
        ensures { Adds 64 self.old self.new (opacity_line opacity) }
    {
        match opacity {
            Ok(scanned) => self.put_scanned(scanned),
            Err(refusal) => self.put_unscanned(refusal),
        }
    }

    // Puts the lines of a report: one where the history is refused, and four where it is not.
    fn put_lines(&mut self, report: Result<Report, Refusal>)
        ensures { Adds 343 self.old self.new (lines report) }
    {
        match report {
            Ok(report) => {
                self.put_counts(report.counts);
                self.put_tally(report.tally);
                self.put_marking(report.marking);
                self.put_opacity(report.opacity);
            }
            Err(refusal) => self.put_refused(b"history", refusal),
        }
    }

    // Gives the text to an output, from its first byte on, and answers how many bytes it has.
    fn put_into(&self, out: &mut [u8; 343]) -> usize
        ensures { Put 343 out.old out.new 0 self.now result }
    {
        out[..self.length].copy_from_slice(&self.bytes[..self.length]);
        self.length
    }
}

// Gives the letter of a rule.
fn letter_of(rule: Rule) -> u8
    ensures { result ∷ [] ≡ text (letter rule) }
{
    match rule {
        Rule::A => b'A',
        Rule::B => b'B',
        Rule::C => b'C',
        Rule::D => b'D',
        Rule::E => b'E',
    }
}

// Gives the number of a cause.
fn number_of(cause: Cause) -> usize
    ensures { result ≡ cause_number cause }
{
    match cause {
        Cause::Read => 1,
        Cause::Commit => 2,
        Cause::Abort => 3,
        Cause::Other => 4,
    }
}

// Puts the lines of a report at the start of the output, and answers how many bytes they have.
pub fn put_report(report: Result<Report, Refusal>, out: &mut [u8; 343]) -> usize
    ensures value { result ≡ length (lines report) }
    ensures out_after { out.new ≡ over (lines report) out.old }
{
    let mut text = Text::new();
    text.put_lines(report);
    text.put_into(out)
}

// Puts the lines of the report on a history file and a marking file at the start of the output, and
// answers how many bytes they have.
pub fn put_report_on(history: &[u8], marking: &[u8], out: &mut [u8; 343]) -> usize
    ensures value { result ≡ length (lines (report_on history.now marking.now)) }
    ensures out_after { out.new ≡ over (lines (report_on history.now marking.now)) out.old }
{
    put_report(report_on(history, marking), out)
}
