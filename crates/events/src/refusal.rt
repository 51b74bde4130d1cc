// Refusals: every answer that can refuse holds one.
ghost use Rattle.std.specs.Prelude.{◌≡◌, true, false, MatchResult};
ghost use Rattle.events.specs.Said.{about};

// The number of the question that says no, and what it is about: an event of columns, or a byte of a
// file. Which of the two it is, the case of the answer tells. A question is a number here as in the
// definitions (`Refusal` of Said.antt), which is also what C is told.
#[derive(Clone, Copy, PartialEq, Eq)]
pub struct Refusal {
    pub question: u8,
    pub at: usize,
}

// Puts a question by its number: if it says no, the number refuses.
pub fn ask(yes: bool, question: u8) -> Result<(), u8>
    ensures { MatchResult result (λ _. yes ≡ true) (λ q. (yes ≡ false) × (q ≡ question)) }
{
    if yes { Ok(()) } else { Err(question) }
}

// Says what the question is about that a call answers.
pub fn about<T>(asked: Result<T, u8>, at: usize) -> Result<T, Refusal>
    ensures { result ≡ about asked at }
{
    asked.map_err(|question| Refusal { question, at })
}
