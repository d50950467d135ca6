// The sums that an edit makes.
ghost use Rattle.std.specs.Prelude.{◌≡◌, [], ◌∷◌, length};
ghost use Rattle.sum_terms.specs.Sums.{checked_sums, checked_less};

use state_sums::Accumulator;

// The sums without what the old word gave and with what the new one gives; `part` is the key from the word under them on. n
// steps twice, however long the message is.
pub(crate) fn corrected(s: Accumulator, old: u32, word: u32, part: &[u32]) -> Accumulator
    ensures { (result
        ≡ record {
          width = s.width;
          kept = s.kept;
          n = s.n;
          count = s.count;
          sums = checked_sums s.width s.n (word ∷ []) part.now (checked_less s.width s.n (old ∷ []) part.now s.sums);
        })
        × (length s.sums ≡ 8) }
{
    let mut sums = s.sums;
    sum_edits::subtract_word(s.width, s.n, old, part, &mut sums);
    sum_edits::add_word(s.width, s.n, word, part, &mut sums);
    Accumulator { sums, ..s }
}
