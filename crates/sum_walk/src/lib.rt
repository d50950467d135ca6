// One walk over a message and its key for n sums, with the range test of the words in it. All that digests under one key runs
// through it.
#![tactic(auto)]

ghost use Rattle.std.specs.Prelude.{◌≡◌, ◌+◌, ◌-◌, ◌*◌, ◌^◌, ◌<◌, ◌≤◌, true, false, [], ◌∷◌, length, slice_index};
ghost use Rattle.sum_walk.specs.Walk.{added, Accumulated, bits_fit, BitsJoined, SameBits, Ready, PairsWalked, WalkResult};

use sum_terms::product;

// What a walk leaves: for each sum its two numbers, and all bits that stand in a tested word.
#[derive(Clone, Copy, Default)]
pub struct Walked {
    pub low: [u64; 8],
    pub high: [u64; 8],
    pub bits: u32,
}

// The walk for n sums over the words in pairs: all of the message but an odd last one. Where there are no n sums, it leaves zeros.
pub fn walk_pairs(w: u32, n: u32, tested: bool, message: &[u32], key: &[u32]) -> Walked
    ensures { WalkResult tested w n message.now key.now result.low result.high result.bits }
{
    if !sum_terms::can_sum(w, n, message.len(), key.len()) {
        return Walked::default();
    }
    // A parameter of the signature that other crates call; from here on it is in the type.
    if tested {
        walk_for::<true>(w, n, message, key)
    } else {
        walk_for::<false>(w, n, message, key)
    }
}

// The walk for a number of sums that is known as the program runs: for each such number there is a loop of its own, with no loop
// over the sums in it. A message that is not tested needs no test: it is one of bytes, or was tested before.
fn walk_for<const TESTED: bool>(w: u32, n: u32, message: &[u32], key: &[u32]) -> Walked
    requires { Ready w n message.now key.now }
    ensures { PairsWalked TESTED w n message.now key.now result.low result.high result.bits }
{
    match n {
        1 => walk::<1, TESTED>(w, message, key),
        2 => walk::<2, TESTED>(w, message, key),
        3 => walk::<3, TESTED>(w, message, key),
        4 => walk::<4, TESTED>(w, message, key),
        5 => walk::<5, TESTED>(w, message, key),
        6 => walk::<6, TESTED>(w, message, key),
        7 => walk::<7, TESTED>(w, message, key),
        _ => walk::<8, TESTED>(w, message, key),
    }
}

// Adds the words in pairs to N sums, each word with the key's part from its place on, and returns all bits that stand in a
// tested word. Two words to a turn, and turns that are counted: the compiler multiplies in vectors. Over
// `message.as_chunks::<2>()` in place of the places p it took 8 % longer for one sum, and 5 % for three.
fn walk<const N: usize, const TESTED: bool>(w: u32, message: &[u32], key: &[u32]) -> Walked
    requires { Ready w N message.now key.now }
    ensures { PairsWalked TESTED w N message.now key.now result.low result.high result.bits }
{
    let mut sums = Sums::default();
    let mut bits = WordBits::default();
    for p in 0..message.len() / 2 {
        let j = 2 * p;
        let first = message[j];
        let second = message[j + 1];
        bits.add_pair::<TESTED>(first, second, key, j);
        sums.add_word::<N>(w, first, &key[j..]);
        sums.add_word::<N>(w, second, &key[j + 1..]);
    }
    Walked {
        low: sums.low,
        high: sums.high,
        bits: bits.all(),
    }
}

// The sums of a walk. Each is two numbers: of the products m·k, and of the products m·next with their low w bits cleared,
// modulo 2^64; they are joined by one shift, after the walk. Eight places for every N, as the public `Walked` has them.
#[derive(Clone, Copy, Default)]
struct Sums {
    low: [u64; 8],
    high: [u64; 8],
}

impl Sums {
    // Adds one message word to N sums, each under its own word of the key's part. By their places: with a zip of `iter_mut`
    // the proof did not close, since nothing there names the rows while they are lent.
    fn add_word<const N: usize>(&mut self, w: u32, m: u32, part: &[u32])
        requires { (w ≤ 32) × (N ≤ 8) × (N < length part.now) × (length self.old.low ≡ 8) × (length self.old.high ≡ 8) }
        ensures { Accumulated w N (λ i. added w part.now i m) self.old.low self.old.high self.new.low self.new.high }
    {
        for i in 0..N {
            self.low[i] = self.low[i].wrapping_add(product(m, part[i]));
            self.high[i] = self.high[i].wrapping_add(product(m, part[i + 1]) & high_bits(w));
        }
    }
}

// All bits of 64 but the low w.
fn high_bits(w: u32) -> u64
    requires { w ≤ 32 }
    ensures { result ≡ 2 ^ 64 - 2 ^ w }
{
    u64::MAX << w
}

// All bits that stand in some word: of the message at even and at odd places, and of the key in pairs, the second word of a
// pair in the upper half. In three numbers, as the products have the words: so the test costs least.
#[derive(Clone, Copy, Default)]
struct WordBits {
    even: u64,
    odd: u64,
    keys: u64,
}

impl WordBits {
    // Joins the bits of two message words, where they are tested, and of the key's two words from j on.
    fn add_pair<const TESTED: bool>(&mut self, first: u32, second: u32, key: &[u32], j: usize)
        requires { j + 2 ≤ length key.now }
        ensures { BitsJoined TESTED (λ w. bits_fit w self.old.even self.old.odd self.old.keys) (first ∷ second ∷ []) (slice_index key.now j ∷ slice_index key.now (j + 1) ∷ []) self.new.even self.new.odd self.new.keys }
    {
        if TESTED {
            self.even |= u64::from(first);
            self.odd |= u64::from(second);
        }
        self.keys |= pair(key, j);
    }

    // All of them in one word.
    fn all(self) -> u32
        ensures { SameBits result self.even self.odd self.keys }
    {
        let low = (self.even | self.odd | self.keys) % 0x1_0000_0000;
        (low | self.keys / 0x1_0000_0000) as u32
    }
}

// The two words from j on as one number of 64 bits. A function of its own, which cuts the part out itself: the compiler then
// loads both at once, and else it would not multiply in vectors.
fn pair(key: &[u32], j: usize) -> u64
    requires { j + 2 ≤ length key.now }
    ensures { result ≡ slice_index key.now j + 2 ^ 32 * slice_index key.now (j + 1) }
{
    let part = &key[j..];
    u64::from(part[0]) + 0x1_0000_0000 * u64::from(part[1])
}
