// Rows of key words from a seed or an array of seed words: the stretch of one row, and the load of a key row and a message row.
#![tactic(auto)]

ghost use Rattle.std.specs.Prelude.{◌≡◌, ◌≤◌, ℕ, length};
ghost use Rattle.answers.specs.Refusals.{answer_of};
ghost use Rattle.mt19937.specs.Published.{seeded};
ghost use Rattle.mt19937.specs.declared.Generator.{Generator};
ghost use Rattle.mt19937_array.specs.SeedArray.{arrayed};
ghost use Rattle.stretch.specs.Stretch.{after, key_row, stretch_array_answer};
ghost use Rattle.stretch.specs.Load.{load_array_answer, key_after, message_after};

use answers::{MOST_MESSAGE, MOST_STRETCH, Refusal, table};
use mt19937::Generator;

mod keys;

// What a generator is made new from: a plain seed, or an array of 1 to 8 seed words.
pub trait Seed: Copy {
    ghost words: { Self → ℕ };

    ghost makes: { Self → Generator };

    // How many words it has. A plain seed counts as one.
    fn words(self) -> usize
        ensures { result ≡ words self };

    // The all-zero generator where it is refused.
    fn generator(self) -> Generator
        ensures { (result ≡ makes self) × (result.at ≤ 624) };
}

impl Seed for u32 {
    ghost words = { λ seed. 1 };

    ghost makes = { seeded };

    fn words(self) -> usize {
        1
    }

    fn generator(self) -> Generator {
        Generator::new(self)
    }
}

impl Seed for &[u32] {
    ghost words = { λ seed. length seed.now };

    ghost makes = { λ seed. arrayed seed.now };

    fn words(self) -> usize {
        self.len()
    }

    fn generator(self) -> Generator {
        mt19937_array::from_array(self).unwrap_or_else(|_| mt19937_array::no_generator())
    }
}

// Fills the whole row with key words, each the upper w bits of the next output of a generator that is new from the seed: a load
// without a message.
pub fn stretch<S: Seed>(w: u32, seed: S, out: &mut [u32]) -> Result<(), Refusal>
    ensures { let answer = stretch_array_answer w (S.words seed) (length out.old) in
        (answer_of result ≡ answer) × (out.new ≡ key_after answer w (S.makes seed) out.old) }
{
    load(w, seed, out, &mut [])
}

// Fills the whole key row as a stretch does, and the whole message row from the outputs that follow.
pub fn load<S: Seed>(w: u32, seed: S, key: &mut [u32], message: &mut [u32]) -> Result<(), Refusal>
    ensures { let answer = load_array_answer w (S.words seed) (length key.old) (length message.old) in
        (answer_of result ≡ answer)
        × (key.new ≡ key_after answer w (S.makes seed) key.old)
        × (message.new ≡ message_after answer w (S.makes seed) key.old message.old) }
{
    validate(w, seed.words(), key.len(), message.len())?;
    write_rows(w, seed, key, message);
    Ok(())
}

// The two rows of an accepted load. A function of its own, since a generator's words are zeroed where a function begins: a refused
// call would wait for it.
fn write_rows<S: Seed>(w: u32, seed: S, key: &mut [u32], message: &mut [u32])
    requires { (1 ≤ w) × (w ≤ 32) }
    ensures { (key.new ≡ key_row w (S.makes seed) (length key.old))
        × (message.new ≡ key_row w (after (length key.old) (S.makes seed)) (length message.old)) }
{
    let Generator { mut words, at } = seed.generator();
    let next = keys::key_row(w, &mut words, at, key);
    keys::key_row(w, &mut words, next, message);
}

// By how many words seed, key row and message row have. A plain seed's one word passes, and so does a missing message row.
fn validate(w: u32, seed: usize, key: usize, message: usize) -> Result<(), Refusal>
    ensures { answer_of result ≡ load_array_answer w seed key message }
{
    table::width(w)?;
    table::seed(seed)?;
    table::long(MOST_STRETCH, key)?;
    table::long(MOST_MESSAGE, message)
}

#[cfg(test)]
mod tests {
    use super::*;

    // The published outputs of both kinds of seed, and a load that goes on.
    #[test]
    fn both_kinds_of_seed(rt: HostRuntime) {
        let mut key = [0; 2];
        let mut message = [0; 1];
        assert_eq!(rt; load(32, 5489, &mut key, &mut message), Ok(()));
        assert_eq!(rt; key, [3499211612, 581869302]);
        assert_eq!(rt; message, [3890346734]);
        let seed: &[u32] = &[0x123, 0x234, 0x345, 0x456];
        assert_eq!(rt; stretch(32, seed, &mut key), Ok(()));
        assert_eq!(rt; key, [1067595299, 955945823]);
        assert_eq!(rt; stretch(32, &seed[..0], &mut key), Err(Refusal::Seed));
        assert_eq!(rt; key, [1067595299, 955945823]);
    }
}
