// What a record of a marking file answers, given what has been read before it.
ghost use Rattle.std.specs.Prelude.{◌≡◌, Bool, false, ℕ, ◌+◌, ◌≤◌, ◌<◌, length, get_or, replicate, eqb};
ghost use Rattle.lists.specs.Lists.{every};
ghost use Rattle.events.specs.Questions.{refusal};
ghost use Rattle.records.specs.Records.{body_of};
ghost use Rattle.opacity.specs.Transactions.{is_store_read};
ghost use Rattle.marking_reader.specs.File.{body_step, end_step, step_at};
ghost use Rattle.marking_reader.specs.State.{Asking, point_by, asked_at, said_at, place_questions, point_questions, place_step, point_step};

use event_log::admit::ask;
use events::event::Event;
use events::refusal::Refusal;
use reads::{NO_POINT, is_store_read};
use records::fields::{u16_at, u32_at};
use records::record::{Found, Record, record_at};

// What stands at a byte where no question says no: a place or a point, with the byte where its record ends,
// or the end of the file.
#[derive(Clone, Copy)]
pub enum MarkingStep {
    Placed {
        transaction: u16,
        outcome: u16,
        end: usize,
    },
    Pointed {
        event: usize,
        gap: u16,
        end: usize,
    },
    Finished,
}

// How far a marking has been read: which transactions are placed and how many those are, one past the last
// point's event, and the byte of the next record.
#[derive(Clone, Copy)]
pub struct Progress {
    pub used: [bool; 64],
    pub filled: usize,
    pub next: usize,
    pub at: usize,
}

impl Progress {
    // Before the first record behind the head.
    pub fn new() -> Progress
        ensures { result ≡ record { used = replicate 64 false; filled = 0; next = 0; at = 6 } }
    {
        Progress {
            used: [false; 64],
            filled: 0,
            next: 0,
            at: Record::WHOLE_HEAD,
        }
    }
}

// What a marking is read for: a readable history in a log, its own writes, and how many transactions it has.
#[derive(Clone, Copy)]
pub struct MarkedLog<'a> {
    pub log: &'a [Event],
    pub own: &'a [u16],
    pub begun: usize,
    ghost asking: { Asking log.now own.now begun },
}

impl MarkedLog<'_> {
    // 24 and 25 of a place.
    fn ask_place(&self, progress: &Progress, transaction: u16, outcome: u16) -> Result<(), Refusal>
        ensures { result ≡ said_at (refusal (place_questions self.now.begun progress.now.next
            (get_or progress.now.used transaction false) transaction outcome)) progress.now.at }
    {
        let t = usize::from(transaction);
        let is_free = progress.next == 0 && t < self.begun && !progress.used[t];
        ask(is_free, 24, progress.at)?;
        ask(outcome < 2, 25, progress.at)
    }

    // 28, 26 and 27 of a point: 28 where it is the first one.
    fn ask_point(&self, progress: &Progress, event: usize, gap: u16) -> Result<(), Refusal>
        ensures { result ≡ said_at (refusal (point_questions self.now.begun progress.now.next
            (eqb progress.now.filled self.now.begun) (is_store_read self.now.log.now event) event gap)) progress.now.at }
    {
        let is_due = progress.next != 0 || progress.filled == self.begun;
        ask(is_due, 28, progress.at)?;
        let is_next = progress.next <= event
            && event < self.log.len()
            && is_store_read(self.log, self.own, event);
        ask(is_next, 26, progress.at)?;
        ask(usize::from(gap) <= self.begun, 27, progress.at)
    }

    // 23 to 25 of a place, whose record ends at a byte.
    fn place_step(
        &self,
        progress: &Progress,
        body: &[u8],
        end: usize,
    ) -> Result<MarkingStep, Refusal>
        ensures { result ≡ place_step self.now.begun progress.now.next (λ t. get_or progress.now.used t false)
            progress.now.at body.now end }
    {
        ask(body.len() == Record::PLACE_SIZE, 23, progress.at)?;
        let transaction = u16_at(body, 0);
        let outcome = u16_at(body, 2);
        self.ask_place(progress, transaction, outcome)?;
        Ok(MarkingStep::Placed {
            transaction,
            outcome,
            end,
        })
    }

    // 23, 28, 26 and 27 of a point, whose record ends at a byte.
    fn point_step(
        &self,
        progress: &Progress,
        body: &[u8],
        end: usize,
    ) -> Result<MarkingStep, Refusal>
        ensures { result ≡ point_step self.now.begun progress.now.next (eqb progress.now.filled self.now.begun)
            (is_store_read self.now.log.now) progress.now.at body.now end }
    {
        ask(body.len() == Record::POINT_SIZE, 23, progress.at)?;
        // Kept as a cast: a `usize` comes from a `u16` at most.
        let event = u32_at(body, 0) as usize;
        let gap = u16_at(body, 4);
        self.ask_point(progress, event, gap)?;
        Ok(MarkingStep::Pointed { event, gap, end })
    }

    // 22 to 28 of a whole record, whose body is a part of the file.
    fn record_step(
        &self,
        progress: &Progress,
        file: &[u8],
        r: Record,
    ) -> Result<MarkingStep, Refusal>
        requires { r.start + r.size ≤ length file.now }
        ensures { result ≡ body_step (asked_at self.now.log.now self.now.begun progress.now) progress.now.at
            r.kind (body_of file.now r) (r.start + r.size) }
    {
        let end = r.start + r.size;
        let body = &file[r.start..end];
        match r.kind {
            Record::PLACE => self.place_step(progress, body, end),
            Record::POINT => self.point_step(progress, body, end),
            _ => Err(Refusal {
                question: 22,
                at: progress.at,
            }),
        }
    }

    // Is event i, if it is a store read, one with a point?
    fn is_pointed(&self, gaps: &[u16], i: usize) -> bool
        requires { (i < length self.now.log.now) × (length self.now.log.now ≤ length gaps.now) }
        ensures { result ≡ point_by self.now.log.now gaps.now i }
    {
        gaps[i] != NO_POINT || !is_store_read(self.log, self.own, i)
    }

    // Question 29: has every store read a point?
    fn every_pointed(&self, gaps: &[u16]) -> bool
        requires { length self.now.log.now ≤ length gaps.now }
        ensures { result ≡ every (point_by self.now.log.now gaps.now) (length self.now.log.now) }
    {
        (0..self.log.len()).all(|i| self.is_pointed(gaps, i))
    }

    // 28 and 29, at the end of the file.
    fn end_step(
        &self,
        progress: &Progress,
        gaps: &[u16],
        end: usize,
    ) -> Result<MarkingStep, Refusal>
        requires { length self.now.log.now ≤ length gaps.now }
        ensures { result ≡ end_step end (eqb progress.now.filled self.now.begun)
            (every (point_by self.now.log.now gaps.now) (length self.now.log.now)) }
    {
        ask(progress.filled == self.begun, 28, end)?;
        ask(self.every_pointed(gaps), 29, end)?;
        Ok(MarkingStep::Finished)
    }

    // What stands at the next record's byte answers.
    pub fn step_at(
        &self,
        progress: &Progress,
        gaps: &[u16],
        file: &[u8],
    ) -> Result<MarkingStep, Refusal>
        requires { length self.now.log.now ≤ length gaps.now }
        ensures { result ≡ step_at (asked_at self.now.log.now self.now.begun progress.now)
            (every (point_by self.now.log.now gaps.now) (length self.now.log.now))
            file.now progress.now.at }
    {
        match record_at(file, progress.at) {
            Found::Whole(r) => self.record_step(progress, file, r),
            Found::Short => Err(Refusal {
                question: 2,
                at: progress.at,
            }),
            Found::End => self.end_step(progress, gaps, file.len()),
        }
    }
}
