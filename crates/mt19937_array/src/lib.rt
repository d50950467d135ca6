// MT19937 made new from an array of seed words: its published initialisation by array of 2002.
#![tactic(auto)]

ghost use Rattle.std.specs.Prelude.{◌≡◌, ◌<◌, ◌≤◌, length};
ghost use Rattle.std.specs.Result.{result_unwrap_or};
ghost use Rattle.answers.specs.Refusals.{answer_of};
ghost use Rattle.mt19937.specs.Published.{steps};
ghost use Rattle.mt19937_array.specs.SeedArray.{onward, place_at, mixed, put, seed_step, index_word, index_step, array_words, no_generator, made};

use answers::{Refusal, table};
use mt19937::{Generator, Words};

// The seed of the filling before the two loops, their multipliers, and word 0 at last.
pub const FILL: u32 = 19650218;

pub const FIRST_FACTOR: u32 = 1664525;

pub const SECOND_FACTOR: u32 = 1566083941;

pub const FIRST_WORD: u32 = 0x8000_0000;

// The last state word.
const LAST: usize = Generator::SIZE - 1;

// From an array of 1 to 8 seed words. One word makes another generator than the same word as a seed. What it makes, or in its
// absence the all-zero generator, is the state of the making.
pub fn from_array(seed: &[u32]) -> Result<Generator, Refusal>
    ensures answer { answer_of result ≡ (made seed.now).answer }
    ensures state { result_unwrap_or result no_generator ≡ (made seed.now).state }
{
    table::seed(seed.len())?;
    Ok(Generator {
        words: fill_by_array(seed),
        at: Generator::SIZE,
    })
}

// The all-zero generator, which stands for the state of a refused making.
pub fn no_generator() -> Generator
    ensures { result ≡ no_generator }
{
    Generator {
        words: [0; Generator::SIZE],
        at: 0,
    }
}

fn fill_by_array(seed: &[u32]) -> Words
    requires { (1 ≤ length seed.now) × (length seed.now ≤ 8) }
    ensures { result ≡ array_words seed.now }
{
    let Generator { words, .. } = Generator::new(FILL);
    let mut mixing = Mixing { words, i: 1 };
    mixing.add_seed(seed);
    mixing.subtract_index();
    let mut words = mixing.words;
    words[0] = FIRST_WORD;
    words
}

// The index after i. The ends are the caller's, since the state has one index and the seed another.
fn step_on(start: usize, end: usize, i: usize) -> usize
    requires { i < end }
    ensures { result ≡ onward start end i }
{
    if i + 1 < end { i + 1 } else { start }
}

// The state words in the two loops, with the index of the one that the next turn changes. It is never 0.
#[derive(Drop)]
struct Mixing {
    words: Words,
    i: usize,
    ghost low: { 1 ≤ i },
    ghost high: { i < 624 },
}

impl Mixing {
    // Word i xor a multiple of the word before it.
    fn mix(&self, factor: u32) -> u32
        ensures { result ≡ mixed factor self.now.words self.now.i }
    {
        let p = self.words[self.i - 1];
        self.words[self.i] ^ mt19937::wrapping_mul(factor, p ^ (p >> Generator::FILL_SHIFT))
    }

    // Word i is written, and where the index wraps word 0 is copied from the last. The index goes on.
    fn put(&mut self, word: u32)
        ensures words { self.new.words ≡ put self.old.i word self.old.words }
        ensures i { self.new.i ≡ onward 1 624 self.old.i }
    {
        let i = self.i;
        self.words[i] = word;
        self.i = step_on(1, Generator::SIZE, i);
        if i == LAST {
            self.words[0] = self.words[LAST];
        }
    }

    // The first loop. Word j of the seed and j are added, and j goes round the seed: both indices wrap on the way, so no row is walked.
    fn add_seed(&mut self, seed: &[u32])
        requires { (self.old.i ≡ 1) × (1 ≤ length seed.now) × (length seed.now ≤ 8) }
        ensures words { self.new.words ≡ steps (seed_step seed.now) 624 self.old.words }
        ensures i { self.new.i ≡ place_at 624 }
    {
        let mut j = 0;
        for k in 0..Generator::SIZE {
            let word = self.mix(FIRST_FACTOR).wrapping_add(seed[j]);
            self.put(word.wrapping_add(j as u32));
            j = step_on(0, seed.len(), j);
        }
    }

    // The second loop. The index is taken off; it wraps on the way here too.
    fn subtract_index(&mut self)
        requires { self.old.i ≡ place_at 624 }
        ensures { self.new.words ≡ steps index_step 623 self.old.words }
    {
        for k in 0..LAST {
            let word = self.mix(SECOND_FACTOR);
            self.put(word.wrapping_sub(self.i as u32));
        }
    }
}
