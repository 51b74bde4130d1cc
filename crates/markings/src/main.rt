// Checks the paper's marking examples, and a file for each refusal, and prints a line for each.
#![tactic(auto)]

ghost use Rattle.std.specs.Prelude.{◌≤◌};

use Part::{Byte, Field, Head, Place, Point};
use event_log::columns::{Columns, History};
use event_log::rows::SHORT;
use events::event::Event;
use events::refusal::Refusal;
use marking::check::{Unchecked, check_marking};
use opacity::verdict::{Rule, Verdict};
use records::record::Record;
use std::fmt::{self, Write as _};

// The number of standard output.
const STDOUT: i32 = 1;

// Standard output, with no buffer: each text is a write of its own. One that cannot be written is left out, and
// those behind it are tried all the same.
#[derive(Clone, Copy)]
struct Output;

impl fmt::Write for Output {
    fn write_str(&mut self, s: &str) -> fmt::Result {
        io::write_all(STDOUT, s.as_bytes());
        Ok(())
    }
}

// An answer of the checker, or a part of one, as a line shows it.
#[derive(Clone, Copy)]
struct Shown<T>(T);

impl fmt::Display for Shown<Rule> {
    fn fmt<W: fmt::Write>(&self, f: &mut fmt::Formatter<W>) -> fmt::Result {
        f.write_str(match self.0 {
            Rule::A => "marking rule A",
            Rule::B => "marking rule B",
            Rule::C => "marking rule C",
            Rule::D => "marking rule D",
            Rule::E => "marking rule E",
        })
    }
}

impl fmt::Display for Shown<Verdict> {
    fn fmt<W: fmt::Write>(&self, f: &mut fmt::Formatter<W>) -> fmt::Result {
        match self.0 {
            Verdict::Accepted => f.write_str("marking accepted"),
            Verdict::Broken {
                rule,
                event,
                transaction,
            } => {
                let rule = Shown(rule);
                write!(f, "{rule} event {event} transaction {transaction}")
            }
        }
    }
}

impl fmt::Display for Shown<Result<Verdict, Unchecked>> {
    fn fmt<W: fmt::Write>(&self, f: &mut fmt::Formatter<W>) -> fmt::Result {
        match self.0 {
            Ok(verdict) => write!(f, "{}", Shown(verdict)),
            Err(Unchecked::HistoryRefused(Refusal { question, at })) => write!(
                f,
                "history refused {question} event {at}"
            ),
            Err(Unchecked::MarkingRefused(Refusal { question, at })) => write!(
                f,
                "marking refused {question} byte {at}"
            ),
        }
    }
}

// The outcomes that a place gives its transaction.
const ABORTED: u16 = 0;

const COMMITTED: u16 = 1;

// What a marking file is made of: the head; the place of a transaction, with its outcome; the read point of an
// event, with its gap; and a field of two bytes and a byte, of which files are made that are refused.
#[derive(Clone, Copy)]
enum Part {
    Head,
    Place(u16, u16),
    Point(u32, u16),
    Field(u16),
    Byte(u8),
}

// The bytes of a marking file, at most 64: what is put beyond them is left out.
#[derive(Clone, Copy)]
struct File {
    bytes: [u8; 64],
    length: usize,
}

impl File {
    fn new() -> File {
        File {
            bytes: [0; 64],
            length: 0,
        }
    }

    fn push(&mut self, b: u8) {
        let at = self.length;
        if at < 64 {
            self.bytes[at] = b;
            self.length = at + 1;
        }
    }

    fn extend_from_slice(&mut self, bytes: &[u8]) {
        for b in bytes {
            self.push(*b);
        }
    }

    // Gives how many bytes are put.
    fn size(self) -> usize
        ensures { result ≤ 64 }
    {
        self.length.min(64)
    }

    fn as_slice(&self) -> &[u8] {
        &self.bytes[..self.size()]
    }
}

impl Part {
    // Puts the part behind what a file has.
    fn put(self, file: &mut File) {
        match self {
            Head => put_fields(
                file,
                &[Record::HEAD_LENGTH, Record::MARKING_HEAD, Record::EDITION],
            ),
            Place(transaction, outcome) => put_fields(
                file,
                &[Record::PLACE_LENGTH, Record::PLACE, transaction, outcome],
            ),
            Point(event, gap) => {
                put_fields(file, &[Record::POINT_LENGTH, Record::POINT]);
                file.extend_from_slice(&event.to_le_bytes());
                put_fields(file, &[gap]);
            }
            Field(n) => put_fields(file, &[n]),
            Byte(b) => file.push(b),
        }
    }
}

// Puts fields of two bytes behind what a file has.
fn put_fields(file: &mut File, fields: &[u16]) {
    for n in fields {
        file.extend_from_slice(&n.to_le_bytes());
    }
}

// How the files of the cases begin: the head; T1, aborted, and then T0, committed; and T0, committed, and then
// T1, aborted.
const HEAD: &[Part] = &[Head];

const T1_T0: &[Part] = &[Head, Place(1, ABORTED), Place(0, COMMITTED)];

const T0_T1: &[Part] = &[Head, Place(0, COMMITTED), Place(1, ABORTED)];

// An event that has its kind and its transaction alone.
fn plain(kind: u16, transaction: u16) -> Event {
    Event {
        kind,
        transaction,
        register: 0,
        thread: 0,
        value: 0,
    }
}

fn begin(transaction: u16, thread: u16) -> Event {
    Event {
        thread,
        ..plain(Record::BEGIN, transaction)
    }
}

fn read(transaction: u16, register: u16) -> Event {
    Event {
        register,
        ..plain(Record::READ, transaction)
    }
}

fn read_returned(transaction: u16, register: u16, value: u32) -> Event {
    Event {
        register,
        value,
        ..plain(Record::READ_RETURNED, transaction)
    }
}

fn write(transaction: u16, register: u16, value: u32) -> Event {
    Event {
        register,
        value,
        ..plain(Record::WRITE, transaction)
    }
}

fn write_returned(transaction: u16) -> Event {
    plain(Record::WRITE_RETURNED, transaction)
}

fn commit(transaction: u16) -> Event {
    plain(Record::COMMIT, transaction)
}

fn committed(transaction: u16) -> Event {
    plain(Record::COMMITTED, transaction)
}

// H0 with this value at event 9.
fn h0_with(value: u32) -> [Event; 10] {
    [
        begin(0, 0),
        write(0, 3, 7),
        write_returned(0),
        begin(1, 1),
        read(1, 3),
        read_returned(1, 3, 0),
        commit(0),
        committed(0),
        read(1, 3),
        read_returned(1, 3, value),
    ]
}

// A history in which T0 commits r0 := 1, and then T1 begins and reads 0.
fn late() -> [Event; 8] {
    [
        begin(0, 0),
        write(0, 0, 1),
        write_returned(0),
        commit(0),
        committed(0),
        begin(1, 1),
        read(1, 0),
        read_returned(1, 0, 0),
    ]
}

// A history with a read of 0 after an own write of 5.
fn own() -> [Event; 5] {
    [
        begin(0, 0),
        write(0, 2, 5),
        write_returned(0),
        read(0, 2),
        read_returned(0, 2, 0),
    ]
}

// As many events as the longest history of a case has: each column has an entry for so many.
const LONGEST: usize = 10;

// Gives the answer for a file and the first `count` events of a history of edition 1, in which every register starts
// at 0.
fn answer(events: &[Event], count: usize, file: &[u8]) -> Result<Verdict, Unchecked> {
    let mut kinds = [0; LONGEST];
    let mut transactions = [0; LONGEST];
    let mut registers = [0; LONGEST];
    let mut values = [0; LONGEST];
    let mut threads = [0; LONGEST];
    for (i, e) in events.iter().enumerate().take(LONGEST) {
        kinds[i] = e.kind;
        transactions[i] = e.transaction;
        registers[i] = e.register;
        values[i] = e.value;
        threads[i] = e.thread;
    }
    let history = History {
        edition: Record::EDITION,
        starts: &[0; 32],
        columns: Columns {
            kinds: &kinds,
            transactions: &transactions,
            registers: &registers,
            values: &values,
            threads: &threads,
        },
        // Every history here is short. A count that shows it spares the stack for the tables of a long one.
        count: count.min(SHORT),
    };
    check_marking(&history, file)
}

// Shows the answer for a file and the first `count` events of a history. This is the only call of `answer`, so that
// the compiler takes both as one, and sees there how short the history is.
fn show_answer(label: &str, events: &[Event], count: usize, file: &[u8]) {
    let _ = writeln!(Output, "{label}: {}", Shown(answer(events, count, file)));
}

// A marking file that is checked against the first `count` events of a history. The file begins with the parts
// `start`, and `rest` are those behind them.
#[derive(Clone, Copy)]
struct Case<'a> {
    label: &'a str,
    history: &'a [Event],
    count: usize,
    start: &'a [Part],
    rest: &'a [Part],
}

impl<'a> Case<'a> {
    // The case of all events of a history, and of a file that has no more than its start.
    fn new(label: &'a str, history: &'a [Event], start: &'a [Part]) -> Case<'a> {
        Case {
            label,
            history,
            count: history.len(),
            start,
            rest: &[],
        }
    }

    fn then(self, rest: &'a [Part]) -> Case<'a> {
        Case { rest, ..self }
    }

    fn file(&self) -> File {
        let mut file = File::new();
        for part in self.start.iter().chain(self.rest) {
            part.put(&mut file);
        }
        file
    }

    fn show(&self) {
        show_answer(self.label, self.history, self.count, self.file().as_slice());
    }
}

// Shows the answer of each case.
fn show(cases: &[Case<'_>]) {
    for case in cases {
        case.show();
    }
}

// Shows the paper's markings. H0 has 0 at event 9, and H7 has 7 there.
fn show_examples() {
    let h0 = h0_with(0);
    let h7 = h0_with(7);
    show(&[
        Case::new("H0, both reads at gap 0", &h0, T1_T0).then(&[Point(5, 0), Point(9, 0)]),
        Case::new("H0, event 9 at gap 1", &h0, T1_T0).then(&[Point(5, 0), Point(9, 1)]),
        Case::new("H0, event 9 at gap 2", &h0, T1_T0).then(&[Point(5, 0), Point(9, 2)]),
        Case::new("H0, T0 aborted", &h0, HEAD).then(&[
            Place(1, ABORTED),
            Place(0, ABORTED),
            Point(5, 0),
            Point(9, 0),
        ]),
        Case::new("H7, T0 then T1, both reads at gap 1", &h7, T0_T1).then(&[
            Point(5, 1),
            Point(9, 1),
        ]),
        Case::new("H7, event 5 at gap 0", &h7, T0_T1).then(&[Point(5, 0), Point(9, 1)]),
        Case::new("T1 began after T0's end, order T1, T0", &late(), T1_T0).then(&[Point(7, 0)]),
        Case::new("own read of 0 after a write of 5", &own(), HEAD).then(&[Place(0, ABORTED)]),
    ]);
}

// One byte more than a marking file may have.
const TOO_LONG: &[u8] = &[0; 32769];

// Shows the question of the file's length: 1. The history is that of one begin.
fn show_length() {
    show_answer("1, a byte too many", &[begin(0, 0)], 1, TOO_LONG);
}

// Shows the questions of the first record and of every record: 2, 21, 22 and 23.
fn show_records() {
    let h0 = h0_with(0);
    show(&[
        Case::new("2, a record cut short", &h0, HEAD).then(&[Field(6), Byte(32)]),
        Case::new("21, an empty file", &h0, &[]),
        Case::new("21, edition 2", &h0, &[]).then(&[Field(4), Field(2), Field(2)]),
        Case::new("22, kind 34", &h0, HEAD).then(&[Field(2), Field(34)]),
        Case::new("23, a place with 2 bytes", &h0, HEAD).then(&[Field(4), Field(32), Field(1)]),
    ]);
}

// Shows the questions of a place: 24 and 25.
fn show_places() {
    let h0 = h0_with(0);
    show(&[
        Case::new("24, T1 placed twice", &h0, HEAD).then(&[Place(1, ABORTED), Place(1, ABORTED)]),
        Case::new("24, a place after a read point", &h0, T1_T0).then(&[
            Point(5, 0),
            Place(0, COMMITTED),
        ]),
        Case::new("25, outcome 2", &h0, HEAD).then(&[Place(1, 2)]),
    ]);
}

// Shows the questions of a read point and of the end: 28, 26, 27 and 29.
fn show_points() {
    let h0 = h0_with(0);
    show(&[
        Case::new("28, a read point before T0 is placed", &h0, HEAD).then(&[
            Place(1, ABORTED),
            Point(4, 9),
        ]),
        Case::new("28, the head alone", &h0, HEAD),
        Case::new("26, event 5 after event 9", &h0, T1_T0).then(&[Point(9, 0), Point(5, 0)]),
        Case::new("26, event 4 is no read", &h0, T1_T0).then(&[Point(4, 0)]),
        Case::new("27, gap 3 of 2 transactions", &h0, T1_T0).then(&[Point(5, 3)]),
        Case::new("29, event 9 has no point", &h0, T1_T0).then(&[Point(5, 0)]),
    ]);
}

// Shows the question of the columns' lengths: 17.
fn show_count() {
    let h0 = h0_with(0);
    let past = Case {
        count: 11,
        ..Case::new("17, a count past the columns", &h0, &[])
    };
    show(&[past]);
}

fn main() {
    show_examples();
    show_length();
    show_records();
    show_places();
    show_points();
    show_count();
}
