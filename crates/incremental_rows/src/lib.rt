// An incremental digest whose state is lent as a row of words. A refused call leaves every row as it was.
#![tactic(auto)]

ghost use Rattle.std.specs.Prelude.{◌≡◌, [], ◌∷◌, length, IfOk};
ghost use Rattle.rows.specs.Written.{over};
ghost use Rattle.answers.specs.Answers.{Validates};
ghost use Rattle.answers.specs.Refusals.{answer_of};
ghost use Rattle.answers.specs.Table.{state_test};
ghost use Rattle.incremental_rows.specs.Rows.{row_of, state_of, is_incremental};
ghost use Rattle.incremental_rows.specs.Calls.{open_row_answer, open_row, edit_row_answer, edit_row, edit_row_message, read_row_answer, read_row_out};

use answers::{Refusal, table};
use incremental::{Incremental, validation};
use state_sums::Accumulator;

// Settings, the number of message words and sums.
const WORDS: usize = 12;

// Opens an incremental digest over the row's first words; those beyond keep what they held.
pub fn open(
    w: u32,
    b: u32,
    n: u32,
    message: &[u32],
    key: &[u32],
    state: &mut [u32],
) -> Result<(), Refusal>
    ensures { (answer_of result ≡ open_row_answer w b n message.now key.now state.old)
        × (state.new ≡ open_row w b n message.now key.now state.old) }
{
    validation::opening(w, b, n, message, key)?;
    table::tray(WORDS, state.len())?;
    let opened = Incremental::open(w, b, n, message, key)?;
    write(state, opened);
    Ok(())
}

// An edit on the state that the row holds.
pub fn edit(
    state: &mut [u32],
    message: &mut [u32],
    key: &[u32],
    place: usize,
    word: u32,
) -> Result<(), Refusal>
    ensures { (answer_of result ≡ edit_row_answer state.old message.old key.now place word)
        × (state.new ≡ edit_row state.old message.old key.now place word)
        × (message.new ≡ edit_row_message state.old message.old key.now place word) }
{
    let mut digest = from_row(state)?;
    digest.edit(message, key, place, word)?;
    write(state, digest);
    Ok(())
}

// A reading of the state that the row holds. Beside the one of stream_rows: a trait for both, with its laws, is no plainer than
// this line.
pub fn read(state: &[u32], out: &mut [u32]) -> Result<(), Refusal>
    ensures { (answer_of result ≡ read_row_answer state.now out.old)
        × (out.new ≡ read_row_out state.now out.old) }
{
    from_row(state)?.read(out)
}

// The state that a row of an incremental digest's length holds.
fn from_row(row: &[u32]) -> Result<Incremental, Refusal>
    ensures { (Validates (state_test (is_incremental row.now) ∷ []) (answer_of result)) × (IfOk result (λ s. s ≡ state_of row.now)) }
{
    Refusal::State.check(row.len() != WORDS)?;
    Ok(Incremental {
        held: Accumulator::from_row(row),
    })
}

// The state's twelve words over the row's first places, as many as it has.
fn write(row: &mut [u32], s: Incremental)
    ensures { (row.new ≡ over (row_of s) row.old) × (length (row_of s) ≡ 12) }
{
    s.held.write_row(row);
}
