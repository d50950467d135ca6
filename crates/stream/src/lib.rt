// The digest as a stream of words: opened with the first n key words, fed in parts, read at any moment.
#![tactic(auto)]

ghost use Rattle.std.specs.Prelude.{◌≡◌};
ghost use Rattle.std.specs.Result.{result_unwrap_or};
ghost use Rattle.answers.specs.Refusals.{answer_of};
ghost use Rattle.stream.specs.State.{no_stream, fit_state};
ghost use Rattle.stream.specs.Calls.{open_answer, open_state, push_answer, push_state, read_answer, read_row};

use answers::Refusal;
use state_sums::Accumulator;

mod adding;
mod keys;
pub mod validation;

// The settings, the count of words pushed and n full-width sums, and the last n key words. Unused places are zero: with no heap
// a state has the places of the longest.
#[derive(Clone, Copy)]
pub struct Stream {
    pub held: Accumulator,
    pub keys: [u32; 8],
}

// The all-zero state, in place of a refused opening's. By hand, where a derive would not name it.
impl Default for Stream {
    ghost is_default = { λ s. s ≡ no_stream };

    #[tactic(auto, unfolding(crate::specs::State::no_stream))]
    fn default() -> Stream {
        Stream {
            held: Accumulator::new(0, 0, 0, 0),
            keys: [0; 8],
        }
    }
}

impl Stream {
    // A stream that has taken no word yet.
    pub fn open(w: u32, b: u32, n: u32, key: &[u32]) -> Result<Stream, Refusal>
        ensures { (answer_of result ≡ open_answer w b n key.now)
            × (result_unwrap_or result no_stream ≡ open_state w b n key.now) }
    {
        validation::opening_with_words(w, b, n, key)?;
        Ok(Stream {
            held: Accumulator::new(w, b, n, 0),
            keys: keys::row(key),
        })
    }

    // The part's words added, or the state as it was. The words are tested as they are summed; where one does not fit, the
    // sums are dropped.
    pub fn push(&mut self, message: &[u32], key: &[u32]) -> Result<(), Refusal>
        ensures { (answer_of result ≡ push_answer self.old message.now key.now)
            × (self.new ≡ push_state self.old message.now key.now) }
    {
        validation::pushing(self, message, key)?;
        let mut sums = self.held.sums;
        if !adding::add_part(
            self.held.width,
            self.held.n,
            &self.keys,
            message,
            key,
            &mut sums,
        ) {
            return Err(Refusal::Word);
        }
        *self = adding::pushed(*self, sums, message, key);
        Ok(())
    }

    // The held sums with b bits kept into the first n places of out.
    pub fn read(&self, out: &mut [u32]) -> Result<(), Refusal>
        ensures { (answer_of result ≡ read_answer self.now out.old)
            × (out.new ≡ read_row self.now out.old) }
    {
        Refusal::State.check(!self.fit())?;
        self.held.try_read(out)
    }

    // Whether the state passes test 8.
    fn fit(&self) -> bool
        ensures { result ≡ fit_state self.now }
    {
        self.held.fit(answers::MOST_MESSAGE)
            && range::fit_row(self.held.width, self.held.n as usize, &self.keys)
    }
}
