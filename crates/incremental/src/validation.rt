// The tests of a call, in the order of the table.
ghost use Rattle.std.specs.Prelude.{◌≡◌};
ghost use Rattle.answers.specs.Answers.{Validates};
ghost use Rattle.answers.specs.Refusals.{answer_of};
ghost use Rattle.incremental.specs.Calls.{open_tests, edit_answer};

use crate::Incremental;
use answers::{Refusal, table};

// Width, Kept, Count, Long, Key.
pub fn opening(w: u32, b: u32, n: u32, message: &[u32], key: &[u32]) -> Result<(), Refusal>
    ensures { Validates (open_tests w b n message.now key.now) (answer_of result) }
{
    state_sums::settings(w, b, n)?;
    table::long(answers::MOST_MESSAGE, message.len())?;
    table::key(message.len() + n as usize, key.len())
}

// State, Long, Key, Place, Word.
pub(crate) fn editing(
    s: &Incremental,
    message: &[u32],
    key: &[u32],
    place: usize,
    word: u32,
) -> Result<(), Refusal>
    ensures { answer_of result ≡ edit_answer s.now message.now key.now place word }
{
    let t = s.held.count as usize;
    let n = s.held.n as usize;
    Refusal::State.check(!s.fit())?;
    table::length(t, message.len())?;
    table::key(t + n, key.len())?;
    table::place(t, place)?;
    table::words(
        s.held.width,
        &[message[place], word],
        &key[place..place + n + 1],
    )
}
