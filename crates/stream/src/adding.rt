// What a push adds to the state.
ghost use Rattle.std.specs.Prelude.{◌≡◌, true, ◌&&◌, ◌++◌, ◌≤◌, length, take};
ghost use Rattle.theory_counts.specs.Words.{fits};
ghost use Rattle.sum_terms.specs.Sums.{checked_sums};
ghost use Rattle.stream.specs.State.{held_keys, pushed};
ghost use Rattle.stream.specs.Calls.{push_answer};

use crate::{Stream, keys};
use state_sums::Accumulator;

// The state after an accepted push, which made these sums.
pub(crate) fn pushed(s: Stream, sums: [u32; 8], message: &[u32], key: &[u32]) -> Stream
    requires { (push_answer s message.now key.now ≡ 0)
        × (sums ≡ checked_sums s.held.width s.held.n message.now (held_keys s ++ key.now) s.held.sums) }
    ensures { result ≡ pushed s message.now key.now }
{
    let count = s.held.count + message.len() as u32;
    Stream {
        held: Accumulator {
            count,
            sums,
            ..s.held
        },
        keys: keys::last(s.held.n as usize, &s.keys, key),
    }
}

// Adds to the n sums what the message adds under the held and then the pushed key words, and answers whether its words and
// the pushed ones fit. Only its first words reach into the held ones: they are summed over both rows, joined, and all later
// words straight from the pushed row. The numbers of a stream come apart here, since its sums are made beside it and dropped where a word
// does not fit.
pub(crate) fn add_part(
    w: u32,
    n: u32,
    held: &[u32; 8],
    message: &[u32],
    key: &[u32],
    sums: &mut [u32; 8],
) -> bool
    requires { (1 ≤ w)
        × (w ≤ 32)
        × (1 ≤ n)
        × (n ≤ 8)
        × (length message.now ≡ length key.now)
        × (fits w (take n held.now) ≡ true) }
    ensures { (result ≡ (fits w message.now && fits w key.now))
        × (sums.new ≡ checked_sums w n message.now (take n held.now ++ key.now) sums.old) }
{
    let words = n as usize;
    let first = words.min(key.len());
    let joint = keys::join(words, held, &key[..first]);
    let begun = sum_words::add_sums(w, n, true, &message[..first], &joint, sums);
    if key.len() < words {
        return begun;
    }
    let ended = sum_words::add_sums(w, n, true, &message[first..], key, sums);
    begun & ended
}
