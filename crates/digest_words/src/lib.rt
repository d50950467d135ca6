// The digest of words.
#![tactic(auto)]

ghost use Rattle.std.specs.Prelude.{◌≡◌};
ghost use Rattle.answers.specs.Answers.{Validates};
ghost use Rattle.answers.specs.Refusals.{answer_of};
ghost use Rattle.digest_words.specs.Call.{digest_answer, digest_row, digest_tests, tests_after_width};

use answers::{Refusal, table};

// The digest of the message under the key into the first n places of out, or the first refusal.
pub fn digest_words(
    w: u32,
    b: u32,
    n: u32,
    message: &[u32],
    key: &[u32],
    out: &mut [u32],
) -> Result<(), Refusal>
    ensures { (answer_of result ≡ digest_answer w b n message.now key.now out.old)
        × (out.new ≡ digest_row w b n message.now key.now out.old) }
{
    validate(w, b, n, message, key, out)?;
    let mut sums = [0u32; 8];
    if !sum_words::add_sums(w, n, true, message, key, &mut sums) {
        return Err(Refusal::Word);
    }
    sum_terms::write_kept(b, n as usize, sums, out);
    Ok(())
}

// Tests 1 to 6. Test 7, Word, is made as the words are summed.
fn validate(
    w: u32,
    b: u32,
    n: u32,
    message: &[u32],
    key: &[u32],
    out: &[u32],
) -> Result<(), Refusal>
    ensures { Validates (digest_tests w b n message.now key.now out.now) (answer_of result) }
{
    table::width(w)?;
    validate_after_width(w, b, n, message.len(), key.len(), out.len())
}

// Tests 2 to 6, by the number of message words, key words and places: a digest of bytes has them too.
pub fn validate_after_width(
    w: u32,
    b: u32,
    n: u32,
    t: usize,
    key: usize,
    places: usize,
) -> Result<(), Refusal>
    ensures { Validates (tests_after_width w b n t key places) (answer_of result) }
{
    let words = n as usize;
    table::kept(w, b)?;
    table::count(n)?;
    table::long(answers::MOST_MESSAGE, t)?;
    table::key(t + words, key)?;
    table::tray(words, places)
}
