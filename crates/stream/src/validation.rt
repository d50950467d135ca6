// The tests of a call before its words are summed, in the order of the table.
ghost use Rattle.std.specs.Prelude.{◌≡◌};
ghost use Rattle.answers.specs.Answers.{Validates};
ghost use Rattle.answers.specs.Refusals.{answer_of};
ghost use Rattle.stream.specs.Calls.{open_tests, open_answer, push_tests};

use crate::Stream;
use answers::{Refusal, table};

// Width, Kept, Count, Key.
pub fn opening(w: u32, b: u32, n: u32, key: &[u32]) -> Result<(), Refusal>
    ensures { Validates (open_tests w b n key.now) (answer_of result) }
{
    state_sums::settings(w, b, n)?;
    table::key(n as usize, key.len())
}

// And then Word.
pub(crate) fn opening_with_words(w: u32, b: u32, n: u32, key: &[u32]) -> Result<(), Refusal>
    ensures { answer_of result ≡ open_answer w b n key.now }
{
    opening(w, b, n, key)?;
    table::words(w, &[], key)
}

// State, Long, Key.
pub(crate) fn pushing(s: &Stream, message: &[u32], key: &[u32]) -> Result<(), Refusal>
    ensures { Validates (push_tests s.now message.now key.now) (answer_of result) }
{
    Refusal::State.check(!s.fit())?;
    table::long(answers::MOST_MESSAGE, s.held.count as usize + message.len())?;
    table::key(message.len(), key.len())
}
