// The checker's rules, in the order in which they are tried.
#[derive(Clone, Copy, PartialEq, Eq)]
pub enum Rule {
    A,
    B,
    C,
    D,
    E,
}

// The checker's answer: a broken rule comes with its event and transaction. Kept as an enum that holds an enum: a
// verdict is no failure of the checker, and docs/DECISIONS.md names this form of it.
#[derive(Clone, Copy)]
pub enum Verdict {
    Accepted,
    Broken {
        rule: Rule,
        event: usize,
        transaction: usize,
    },
}

// What an event that faults a history does: it reads, or ends its transaction, or any other.
#[derive(Clone, Copy, PartialEq, Eq)]
pub enum Cause {
    Read,
    Commit,
    Abort,
    Other,
}

// The event that faults a history, and the cause.
#[derive(Clone, Copy)]
pub struct Fault {
    pub event: usize,
    pub cause: Cause,
}

// The scan's answer: the history is opaque, or an event faults it.
pub type Scanned = Result<(), Fault>;
