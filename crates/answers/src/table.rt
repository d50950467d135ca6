// The rows of the table: one function for each, which refuses a call of which the row's condition holds.
ghost use Rattle.std.specs.Prelude.{[], ◌∷◌};
ghost use Rattle.answers.specs.Answers.{Validates};
ghost use Rattle.answers.specs.Refusals.{answer_of};
ghost use Rattle.answers.specs.Table.{width_test, byte_width_test, kept_test, count_test, most_test, length_test, key_test, tray_test, match_tray_test, word_test, peers_test, seed_test, place_test};

use crate::Refusal;
use range::row_fits;

// 1 Width.
#[tactic(auto, using(crate::proofs::Refused::row_of_a_range), unfolding(crate::specs::Table::bad_width))]
pub fn width(w: u32) -> Result<(), Refusal>
    ensures { Validates (width_test w ∷ []) (answer_of result) }
{
    match w {
        1..=32 => Ok(()),
        _ => Err(Refusal::Width),
    }
}

// 1 Width, in the byte digest.
#[tactic(auto, using(crate::proofs::Refused::row_of_numbers), unfolding(crate::specs::Table::bad_byte_width))]
pub fn byte_width(w: u32) -> Result<(), Refusal>
    ensures { Validates (byte_width_test w ∷ []) (answer_of result) }
{
    match w {
        8 | 16 | 32 => Ok(()),
        _ => Err(Refusal::Width),
    }
}

// 2 Kept.
#[tactic(auto, using(crate::proofs::Refused::checks), unfolding(crate::specs::Table::bad_kept))]
pub fn kept(w: u32, b: u32) -> Result<(), Refusal>
    ensures { Validates (kept_test w b ∷ []) (answer_of result) }
{
    Refusal::Kept.check(b == 0)?;
    Refusal::Kept.check(w < b)
}

// 3 Count.
#[tactic(auto, using(crate::proofs::Refused::row_of_a_range), unfolding(crate::specs::Table::bad_count))]
pub fn count(n: u32) -> Result<(), Refusal>
    ensures { Validates (count_test n ∷ []) (answer_of result) }
{
    match n {
        1..=8 => Ok(()),
        _ => Err(Refusal::Count),
    }
}

// 4 Long.
pub fn long(most: usize, words: usize) -> Result<(), Refusal>
    ensures { Validates (most_test most words ∷ []) (answer_of result) }
{
    Refusal::Long.check(most < words)
}

// 4 Long, of a row that has its own number of words.
pub fn length(t: usize, words: usize) -> Result<(), Refusal>
    ensures { Validates (length_test t words ∷ []) (answer_of result) }
{
    Refusal::Long.check(words != t)
}

// 5 Key.
pub fn key(asked: usize, words: usize) -> Result<(), Refusal>
    ensures { Validates (key_test asked words ∷ []) (answer_of result) }
{
    Refusal::Key.check(words != asked)
}

// 6 Tray.
pub fn tray(asked: usize, places: usize) -> Result<(), Refusal>
    ensures { Validates (tray_test asked places ∷ []) (answer_of result) }
{
    Refusal::Tray.check(places < asked)
}

// 6 Tray, in a match.
#[tactic(auto, using(crate::proofs::Refused::checks), unfolding(crate::specs::Table::bad_rows))]
pub fn match_tray(n: usize, first: usize, second: usize) -> Result<(), Refusal>
    ensures { Validates (match_tray_test n first second ∷ []) (answer_of result) }
{
    Refusal::Tray.check(first != n)?;
    Refusal::Tray.check(second != n)
}

// 7 Word.
#[tactic(auto, using(crate::proofs::Refused::checks), unfolding(crate::specs::Table::bad_words))]
pub fn words(w: u32, message: &[u32], key: &[u32]) -> Result<(), Refusal>
    ensures { Validates (word_test w message.now key.now ∷ []) (answer_of result) }
{
    Refusal::Word.check(!row_fits(w, message))?;
    Refusal::Word.check(!row_fits(w, key))
}

// 10 Peers.
#[tactic(auto, using(crate::proofs::Refused::row_of_a_range), unfolding(crate::specs::Table::bad_peers))]
pub fn peers(p: u32) -> Result<(), Refusal>
    ensures { Validates (peers_test p ∷ []) (answer_of result) }
{
    match p {
        1..=16 => Ok(()),
        _ => Err(Refusal::Peers),
    }
}

// 11 Seed.
#[tactic(auto, using(crate::proofs::Refused::row_of_a_range), unfolding(crate::specs::Table::bad_seed))]
pub fn seed(words: usize) -> Result<(), Refusal>
    ensures { Validates (seed_test words ∷ []) (answer_of result) }
{
    match words {
        1..=8 => Ok(()),
        _ => Err(Refusal::Seed),
    }
}

// 12 Place.
pub fn place(t: usize, place: usize) -> Result<(), Refusal>
    ensures { Validates (place_test t place ∷ []) (answer_of result) }
{
    Refusal::Place.check(t <= place)
}
