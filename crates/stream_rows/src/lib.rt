// A stream whose state is lent as a row of words. A refused call leaves every row as it was. Incremental digests have three such
// calls too, of two to four lines each: a trait for both would be longer.
#![tactic(auto)]

ghost use Rattle.std.specs.Prelude.{◌≡◌, [], ◌∷◌, length, IfOk};
ghost use Rattle.rows.specs.Written.{over};
ghost use Rattle.answers.specs.Answers.{Validates};
ghost use Rattle.answers.specs.Refusals.{answer_of};
ghost use Rattle.answers.specs.Table.{state_test};
ghost use Rattle.stream_rows.specs.Rows.{row_of, state_of, is_stream};
ghost use Rattle.stream_rows.specs.Calls.{open_row_answer, open_row, push_row_answer, push_row, read_row_answer, read_row_out};

use answers::{Refusal, table};
use state_sums::Accumulator;
use stream::{Stream, validation};

// Settings, count and sums are twelve words, the key words eight; the last is a depot's, zero until there are depots.
const WORDS: usize = 21;

// Opens a stream over the row's first words; those beyond keep what they held.
pub fn open(w: u32, b: u32, n: u32, key: &[u32], state: &mut [u32]) -> Result<(), Refusal>
    ensures { (answer_of result ≡ open_row_answer w b n key.now state.old)
        × (state.new ≡ open_row w b n key.now state.old) }
{
    validation::opening(w, b, n, key)?;
    table::tray(WORDS, state.len())?;
    let opened = Stream::open(w, b, n, key)?;
    write(state, opened);
    Ok(())
}

// A push on the stream that the row holds.
pub fn push(state: &mut [u32], message: &[u32], key: &[u32]) -> Result<(), Refusal>
    ensures { (answer_of result ≡ push_row_answer state.old message.now key.now)
        × (state.new ≡ push_row state.old message.now key.now) }
{
    let mut stream = from_row(state)?;
    stream.push(message, key)?;
    write(state, stream);
    Ok(())
}

// A reading of the stream that the row holds. Beside the one of incremental_rows: a trait for both, with its laws, is no plainer
// than this line.
pub fn read(state: &[u32], out: &mut [u32]) -> Result<(), Refusal>
    ensures { (answer_of result ≡ read_row_answer state.now out.old)
        × (out.new ≡ read_row_out state.now out.old) }
{
    from_row(state)?.read(out)
}

// The stream that a row holds: a stream's words, and a zero in the place not in use.
fn from_row(row: &[u32]) -> Result<Stream, Refusal>
    ensures { (Validates (state_test (is_stream row.now) ∷ []) (answer_of result)) × (IfOk result (λ s. s ≡ state_of row.now)) }
{
    Refusal::State.check(row.len() != WORDS)?;
    Refusal::State.check(state_rows::word(row, 20) != 0)?;
    let mut keys = [0; 8];
    state_rows::read(row, 12, &mut keys);
    Ok(Stream {
        held: Accumulator::from_row(row),
        keys,
    })
}

// The state's 21 words over the row's first places, as many as it has.
fn write(row: &mut [u32], s: Stream)
    ensures { (row.new ≡ over (row_of s) row.old) × (length (row_of s) ≡ 21) }
{
    s.held.write_row(row);
    state_rows::place(row, 12, &s.keys);
    state_rows::place(row, 20, &[0]);
}
