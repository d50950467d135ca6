// A digest that is kept true while words of its message are replaced: opened with message and key, edited, read at any moment.
#![tactic(auto)]

ghost use Rattle.std.specs.Prelude.{◌≡◌};
ghost use Rattle.std.specs.Result.{result_unwrap_or};
ghost use Rattle.answers.specs.Refusals.{answer_of};
ghost use Rattle.incremental.specs.State.{no_incremental, fit_state};
ghost use Rattle.incremental.specs.Calls.{open_answer, open_state, edit_answer, edit_state, edit_message, read_answer, read_row};

use answers::Refusal;
use state_sums::Accumulator;

mod sums;
pub mod validation;

// The settings, the number of message words and n full-width sums. Unused places are zero: no heap, as `Accumulator` says.
#[derive(Clone, Copy)]
pub struct Incremental {
    pub held: Accumulator,
}

// The all-zero state, in place of a refused opening's. By hand, where a derive would not name it.
impl Default for Incremental {
    ghost is_default = { λ s. s ≡ no_incremental };

    #[tactic(auto, unfolding(crate::specs::State::no_incremental))]
    fn default() -> Incremental {
        Incremental {
            held: Accumulator::new(0, 0, 0, 0),
        }
    }
}

impl Incremental {
    // The digest of the message. The words are tested as they are summed.
    pub fn open(
        w: u32,
        b: u32,
        n: u32,
        message: &[u32],
        key: &[u32],
    ) -> Result<Incremental, Refusal>
        ensures { (answer_of result ≡ open_answer w b n message.now key.now)
            × (result_unwrap_or result no_incremental ≡ open_state w b n message.now key.now) }
    {
        validation::opening(w, b, n, message, key)?;
        let mut held = Accumulator::new(w, b, n, message.len() as u32);
        if !sum_words::add_sums(w, n, true, message, key, &mut held.sums) {
            return Err(Refusal::Word);
        }
        Ok(Incremental { held })
    }

    // The word put at the place of the message, and the state of the message with it; or state and message as they were.
    pub fn edit(
        &mut self,
        message: &mut [u32],
        key: &[u32],
        place: usize,
        word: u32,
    ) -> Result<(), Refusal>
        ensures { (answer_of result ≡ edit_answer self.old message.old key.now place word)
            × (self.new ≡ edit_state self.old message.old key.now place word)
            × (message.new ≡ edit_message self.old message.old key.now place word) }
    {
        validation::editing(self, message, key, place, word)?;
        self.held = sums::corrected(self.held, message[place], word, &key[place..]);
        message[place] = word;
        Ok(())
    }

    // The held sums with b bits kept into the first n places of out.
    pub fn read(&self, out: &mut [u32]) -> Result<(), Refusal>
        ensures { (answer_of result ≡ read_answer self.now out.old)
            × (out.new ≡ read_row self.now out.old) }
    {
        Refusal::State.check(!self.fit())?;
        self.held.try_read(out)
    }

    // Whether the state passes test 8.
    #[tactic(auto, unfolding(crate::specs::State::fit_state))]
    fn fit(&self) -> bool
        ensures { result ≡ fit_state self.now }
    {
        self.held.fit(answers::MOST_MESSAGE)
    }
}
