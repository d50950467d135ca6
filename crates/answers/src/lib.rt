// What a call answers: the refusals and verdicts with the numbers that the agent sees, and a function for each row of their table.
#![tactic(auto)]

ghost use Rattle.std.specs.Prelude.{◌≡◌, [], ◌∷◌};
ghost use Rattle.answers.specs.Answers.{Validates, test};
ghost use Rattle.answers.specs.Refusals.{number, answer_of, match_answer_of};

pub mod table;

// 0 is an accepted call. 13 to 21 belong to later calls.
// begin: made by tools/answers.py from answers.toml
// What refuses a call, in the order of the tests.
#[derive(Clone, Copy, Debug, PartialEq, Eq)]
pub enum Refusal {
    State = 8,
    Width = 1,
    Digits = 9,
    Seed = 11,
    Kept = 2,
    Count = 3,
    Peers = 10,
    Long = 4,
    Key = 5,
    Place = 12,
    Tray = 6,
    Word = 7,
}

// What a match finds.
#[derive(Clone, Copy, Debug, PartialEq, Eq)]
pub enum Verdict {
    Match = 100,
    NoMatch = 101,
}
// end: made by tools/answers.py from answers.toml

// The most message words of a digest, a stream or a load, and the most words of a stretch or of a load's key.
pub const MOST_MESSAGE: usize = 65_536;

pub const MOST_STRETCH: usize = 65_544;

impl Refusal {
    // The number that the agent sees.
    pub fn number(self) -> u32
        ensures { result ≡ number self }
    {
        self as u32
    }

    // This refusal where its condition holds of a call.
    pub fn check(self, holds: bool) -> Result<(), Refusal>
        ensures { Validates (test (number self) holds ∷ []) (answer_of result) }
    {
        if holds { Err(self) } else { Ok(()) }
    }
}

// The number of a call's outcome: 0 where it is accepted.
pub fn answer(outcome: Result<(), Refusal>) -> u32
    ensures { result ≡ answer_of outcome }
{
    match outcome {
        Ok(()) => 0,
        Err(refusal) => refusal.number(),
    }
}

// The number of a match's outcome.
pub fn match_answer(outcome: Result<Verdict, Refusal>) -> u32
    ensures { result ≡ match_answer_of outcome }
{
    match outcome {
        Ok(verdict) => verdict as u32,
        Err(refusal) => refusal.number(),
    }
}
