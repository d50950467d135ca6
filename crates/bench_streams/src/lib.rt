// For the benchmark: one part pushed many times, on a stream by value and on one in a row.
#![tactic(auto)]

ghost use Rattle.std.specs.Prelude.{◌≡◌};
ghost use Rattle.stream.specs.Calls.{open_state, read_answer, read_row};
ghost use Rattle.bench_streams.specs.Pushes.{pushes, row_pushes};

use stream::Stream;

// Opens a stream of 32 bits, pushes the part so many times by value, and reads it.
#[unsafe(no_mangle)]
pub extern "C" fn bench_stream_by_value(
    rounds: u32,
    n: u32,
    first: &[u32],
    message: &[u32],
    key: &[u32],
    out: &mut [u32],
) -> u32
    ensures { (result ≡ read_answer (pushes rounds (open_state 32 32 n first.now) message.now key.now) out.old)
        × (out.new ≡ read_row (pushes rounds (open_state 32 32 n first.now) message.now key.now) out.old) }
{
    let opened = Stream::open(32, 32, n, first).unwrap_or_default();
    let pushed = push_all(rounds, opened, message, key);
    answers::answer(pushed.read(out))
}

fn push_all(rounds: u32, s: Stream, message: &[u32], key: &[u32]) -> Stream
    ensures { result ≡ pushes rounds s message.now key.now }
{
    let mut state = s;
    for _ in 0..rounds {
        let _ = state.push(message, key);
    }
    state
}

// The same pushes on the stream that a row holds.
#[unsafe(no_mangle)]
pub extern "C" fn bench_stream_by_row(rounds: u32, message: &[u32], key: &[u32], state: &mut [u32])
    ensures { state.new ≡ row_pushes rounds state.old message.now key.now }
{
    for _ in 0..rounds {
        let _ = stream_rows::push(state, message, key);
    }
}
