// The key words that a state holds: padded with zeros, joined with pushed ones, the last n of them.
ghost use Rattle.std.specs.Prelude.{◌≡◌, ◌++◌, ◌+◌, ◌≤◌, length, take, drop, replicate};
ghost use Rattle.range.specs.States.{padded};
ghost use Rattle.stream.specs.State.{last_words};

// A row of eight places: the words, and zeros after them.
#[tactic(auto, unfolding(range::specs::States::padded))]
pub(crate) fn row(words: &[u32]) -> [u32; 8]
    requires { length words.now ≤ 8 }
    ensures { result ≡ padded 8 words.now }
{
    let mut places = [0; 8];
    places[..words.len()].copy_from_slice(words);
    places
}

// The first n held key words, then up to eight pushed ones, then zeros.
pub(crate) fn join(n: usize, held: &[u32; 8], key: &[u32]) -> [u32; 16]
    requires { (n ≤ 8) × (length key.now ≤ 8) }
    ensures { result ≡ (take n held.now ++ key.now) ++ drop (n + length key.now) (replicate 16 0) }
{
    let mut joint = [0; 16];
    joint[..n].copy_from_slice(&held[..n]);
    joint[n..n + key.len()].copy_from_slice(key);
    joint
}

// The last n of the held and then the pushed key words.
pub(crate) fn last(n: usize, held: &[u32; 8], key: &[u32]) -> [u32; 8]
    requires { n ≤ 8 }
    ensures { result ≡ padded 8 (last_words n (take n held.now ++ key.now)) }
{
    let words = key.len();
    if n <= words {
        return row(&key[words - n..]);
    }
    let joint = join(n, held, key);
    row(&joint[words..words + n])
}
