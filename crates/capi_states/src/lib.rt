// The C interface: states over lent rows. Each entry hands its rows on and promises what the function behind it promises. A slice passes as a
// pointer and a count.
#![tactic(auto)]

ghost use Rattle.std.specs.Prelude.{◌≡◌};
ghost use Rattle.stream_rows.specs.Calls.{open_row_answer, open_row, push_row_answer, push_row, read_row_answer, read_row_out};
ghost use Rattle.incremental_rows.specs.Calls as incremental;

#[unsafe(no_mangle)]
pub extern "C" fn pairing_stream_open(w: u32, b: u32, n: u32, key: &[u32], state: &mut [u32]) -> u32
    ensures { (result ≡ open_row_answer w b n key.now state.old)
        × (state.new ≡ open_row w b n key.now state.old) }
{
    answers::answer(stream_rows::open(w, b, n, key, state))
}

#[unsafe(no_mangle)]
pub extern "C" fn pairing_stream_push(state: &mut [u32], message: &[u32], key: &[u32]) -> u32
    ensures { (result ≡ push_row_answer state.old message.now key.now)
        × (state.new ≡ push_row state.old message.now key.now) }
{
    answers::answer(stream_rows::push(state, message, key))
}

#[unsafe(no_mangle)]
pub extern "C" fn pairing_stream_read(state: &[u32], out: &mut [u32]) -> u32
    ensures { (result ≡ read_row_answer state.now out.old)
        × (out.new ≡ read_row_out state.now out.old) }
{
    answers::answer(stream_rows::read(state, out))
}

#[unsafe(no_mangle)]
pub extern "C" fn pairing_incremental_open(
    w: u32,
    b: u32,
    n: u32,
    message: &[u32],
    key: &[u32],
    state: &mut [u32],
) -> u32
    ensures { (result ≡ incremental.open_row_answer w b n message.now key.now state.old)
        × (state.new ≡ incremental.open_row w b n message.now key.now state.old) }
{
    answers::answer(incremental_rows::open(w, b, n, message, key, state))
}

#[unsafe(no_mangle)]
pub extern "C" fn pairing_incremental_edit(
    state: &mut [u32],
    message: &mut [u32],
    key: &[u32],
    place: usize,
    word: u32,
) -> u32
    ensures { (result ≡ incremental.edit_row_answer state.old message.old key.now place word)
        × (state.new ≡ incremental.edit_row state.old message.old key.now place word)
        × (message.new ≡ incremental.edit_row_message state.old message.old key.now place word) }
{
    answers::answer(incremental_rows::edit(state, message, key, place, word))
}

#[unsafe(no_mangle)]
pub extern "C" fn pairing_incremental_read(state: &[u32], out: &mut [u32]) -> u32
    ensures { (result ≡ incremental.read_row_answer state.now out.old)
        × (out.new ≡ incremental.read_row_out state.now out.old) }
{
    answers::answer(incremental_rows::read(state, out))
}
