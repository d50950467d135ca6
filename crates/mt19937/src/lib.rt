// MT19937 of Matsumoto and Nishimura, in its 2002 initialisation by a seed.
#![tactic(auto)]

ghost use Rattle.std.specs.Prelude.{◌≡◌, ℕ, ◌+◌, ◌-◌, ◌*◌, ◌%◌, ◌^◌, ◌<◌, ◌≤◌, List};
ghost use Rattle.std.specs.Result.{result_unwrap_or};
ghost use Rattle.answers.specs.Refusals.{answer_of};
ghost use Rattle.mt19937.specs.Published.{steps, generator, following, new_words, seeded, concatenated, twisted, twist, refill, ready, temper, taken, next_of};

use answers::Refusal;

// The words of a state.
pub type Words = [u32; Generator::SIZE];

// The words of the state, and how many of them are used up. Any state with at most 624 used up is fit.
#[derive(Clone, Copy)]
pub struct Generator {
    pub words: Words,
    pub at: usize,
}

impl Generator {
    pub const SIZE: usize = 624;

    pub const FAR: usize = 397;

    pub const FILL_FACTOR: u32 = 1812433253;

    pub const FILL_SHIFT: u32 = 30;

    pub const TOP_BIT: u32 = 0x8000_0000;

    pub const LOW_BITS: u32 = 0x7FFF_FFFF;

    pub const TWIST: u32 = 0x9908_B0DF;

    pub const FIRST_SHIFT: u32 = 11;

    pub const SECOND_SHIFT: u32 = 7;

    pub const SECOND_MASK: u32 = 0x9D2C_5680;

    pub const THIRD_SHIFT: u32 = 15;

    pub const THIRD_MASK: u32 = 0xEFC6_0000;

    pub const LAST_SHIFT: u32 = 18;

    pub const OUTPUT_BITS: u32 = 32;

    // The first state word whose far word lies before it; the last state word, and its far word.
    const TURN: usize = Self::SIZE - Self::FAR;

    const LAST: usize = Self::SIZE - 1;

    const LAST_FAR: usize = Self::FAR - 1;

    pub fn new(seed: u32) -> Generator
        ensures { result ≡ seeded seed }
    {
        Generator {
            words: fill(seed),
            at: Self::SIZE,
        }
    }

    // The next output, or in its absence 0. A refusal leaves the state as it was.
    pub fn next(&mut self) -> Result<u32, Refusal>
        ensures answer { answer_of result ≡ (next_of self.old).answer }
        ensures word { result_unwrap_or result 0 ≡ (next_of self.old).word }
        ensures state { self.new ≡ (next_of self.old).state }
    {
        if self.at > Self::SIZE {
            return Err(Refusal::State);
        }
        self.at = make_ready(&mut self.words, self.at);
        Ok(self.take())
    }

    // The output at a position below 624. The position rises by one.
    fn take(&mut self) -> u32
        requires { self.old.at < 624 }
        ensures word { result ≡ (taken self.old).word }
        ensures state { self.new ≡ (taken self.old).state }
    {
        let word = temper_word(self.words[self.at]);
        self.at += 1;
        word
    }
}

// The product modulo 2^32. The wrap is meant. A helper of its own, as the forms of the papers ask of the filling.
pub fn wrapping_mul(a: u32, b: u32) -> u32
    ensures { result ≡ (a * b) % 2 ^ 32 }
{
    a.wrapping_mul(b)
}

// The word that follows p in a new state.
fn follow(i: u32, p: u32) -> u32
    ensures { result ≡ following i p }
{
    let x = p ^ (p >> Generator::FILL_SHIFT);
    wrapping_mul(Generator::FILL_FACTOR, x).wrapping_add(i)
}

// The state words that a seed makes.
fn fill(seed: u32) -> Words
    ensures { result ≡ new_words seed 624 }
{
    let mut words = [0; Generator::SIZE];
    let mut p = seed;
    for (i, word) in words.iter_mut().enumerate() {
        *word = p;
        p = follow((i + 1) as u32, p);
    }
    words
}

fn join(this: u32, next: u32) -> u32
    ensures { result ≡ concatenated this next }
{
    (this & Generator::TOP_BIT) | (next & Generator::LOW_BITS)
}

fn twist_word(far: u32, y: u32) -> u32
    ensures { result ≡ twisted far y }
{
    let word = far ^ (y >> 1);
    if y & 1 == 1 {
        word ^ Generator::TWIST
    } else {
        word
    }
}

// One step of the refill. The caller says where the indices wrap, so that a run of steps tests nothing.
fn twist_at(words: &mut Words, i: usize, next: usize, far: usize)
    requires { (i < 624) × (next ≡ (i + 1) % 624) × (far ≡ (i + 397) % 624) }
    ensures { words.new ≡ twist i words.old }
{
    let y = join(words[i], words[next]);
    words[i] = twist_word(words[far], y);
}

// The steps from..to, among which no index wraps; far belongs to the first. By index, since a step reads three words and writes one.
fn twist_run(words: &mut Words, from: usize, to: usize, far: usize)
    requires { (from ≤ to) × (to < 624) × (far ≡ (from + 397) % 624) × (far + (to - from) ≤ 624) }
    ensures { (ws : List ℕ) → words.old ≡ steps twist from ws → words.new ≡ steps twist to ws }
{
    for i in from..to {
        twist_at(words, i, i + 1, far + (i - from));
    }
}

fn refill_all(words: &mut Words)
    ensures { words.new ≡ refill words.old }
{
    twist_run(words, 0, Generator::TURN, Generator::FAR);
    twist_run(words, Generator::TURN, Generator::LAST, 0);
    twist_at(words, Generator::LAST, 0, Generator::LAST_FAR);
}

// Refills a state that is used up. The position of the next word, where there is one.
// Words and position apart, as the rows of key words hold them: a generator lent whole is copied once more, 2 % of a stretch of 8 words.
pub fn make_ready(words: &mut Words, at: usize) -> usize
    ensures { generator words.new result ≡ ready (generator words.old at) }
{
    if at == Generator::SIZE {
        refill_all(words);
        0
    } else {
        at
    }
}

pub fn temper_word(y: u32) -> u32
    ensures { result ≡ temper y }
{
    let a = y ^ (y >> Generator::FIRST_SHIFT);
    let b = a ^ ((a << Generator::SECOND_SHIFT) & Generator::SECOND_MASK);
    let c = b ^ ((b << Generator::THIRD_SHIFT) & Generator::THIRD_MASK);
    c ^ (c >> Generator::LAST_SHIFT)
}
