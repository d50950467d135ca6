// Range tests: of a word, of a row of words, and of a row of a state.
#![tactic(auto)]

ghost use Rattle.std.specs.Prelude.{◌≡◌, ◌^◌, ltb};
ghost use Rattle.theory_counts.specs.Words.{fits};
ghost use Rattle.range.specs.Range.{joined};
ghost use Rattle.range.specs.States.{fit_row};

// Whether every word is below 2^w, for every w.
pub fn row_fits(w: u32, row: &[u32]) -> bool
    ensures { result ≡ fits w row.now }
{
    below(w, all_bits(row))
}

// All bits that stand in some word: below 2^w exactly where every word is. No branch in the loop.
fn all_bits(words: &[u32]) -> u32
    ensures { result ≡ joined 0 words.now }
{
    words.iter().fold(0, |bits, word| bits | *word)
}

// Whether a word is below 2^w, for every w.
pub fn below(w: u32, word: u32) -> bool
    ensures { result ≡ ltb word (2 ^ w) }
{
    32 <= w || u64::from(word) < 1 << w
}

// 8 State, a row of a state. Only zero is below 2^0.
pub fn fit_row(w: u32, n: usize, row: &[u32]) -> bool
    ensures { result ≡ fit_row w n row.now }
{
    let (words, unused) = row.split_at(n.min(row.len()));
    row_fits(w, words) && row_fits(0, unused)
}
