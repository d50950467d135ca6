// The digest of bytes.
#![tactic(auto)]

ghost use Rattle.std.specs.Prelude.{◌≡◌};
ghost use Rattle.answers.specs.Answers.{Validates};
ghost use Rattle.answers.specs.Refusals.{answer_of};
ghost use Rattle.digest_bytes.specs.Call.{bytes_answer, bytes_row, bytes_tests};

use answers::{Refusal, table};

// The digest of the bytes' words under the key into the first n places of out, or the first refusal. The word digest has
// four such lines too: a function over the two that differ would be longer than they are.
pub fn digest_bytes(
    w: u32,
    b: u32,
    n: u32,
    message: &[u8],
    key: &[u32],
    out: &mut [u32],
) -> Result<(), Refusal>
    ensures { (answer_of result ≡ bytes_answer w b n message.now key.now out.old)
        × (out.new ≡ bytes_row w b n message.now key.now out.old) }
{
    validate(w, b, n, message, key, out)?;
    let mut sums = [0u32; 8];
    if !sum_bytes::sums_of_bytes(w, n, message, key, &mut sums) {
        return Err(Refusal::Word);
    }
    sum_terms::write_kept(b, n as usize, sums, out);
    Ok(())
}

// Tests 1 to 6. Test 7, Word, is made as the words are summed: of the key alone, since the words of bytes always fit.
fn validate(w: u32, b: u32, n: u32, message: &[u8], key: &[u32], out: &[u32]) -> Result<(), Refusal>
    ensures { Validates (bytes_tests w b n message.now key.now out.now) (answer_of result) }
{
    table::byte_width(w)?;
    let t = sum_bytes::words_in(w, message);
    digest_words::validate_after_width(w, b, n, t, key.len(), out.len())
}
