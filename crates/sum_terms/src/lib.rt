// What the sums of words are made of: products, the bits that are kept, the words as they are written, the tests before them.
#![tactic(auto)]

ghost use Rattle.std.specs.Prelude.{◌≡◌, ◌&&◌, [], ◌∷◌, map, ◌*◌, ◌%◌, ◌^◌, ◌≤◌, take};
ghost use Rattle.rows.specs.Written.{over};
ghost use Rattle.theory_counts.specs.Words.{fits};
ghost use Rattle.theory_digest.specs.Digest.{kept};
ghost use Rattle.sum_terms.specs.Sums.{summable, tests};

use answers::table;

// The whole product, of up to 64 bits.
pub fn product(a: u32, b: u32) -> u64
    ensures { result ≡ a * b }
{
    u64::from(a) * u64::from(b)
}

// The low b bits of a word, for every b.
pub fn keep(b: u32, word: u32) -> u32
    ensures { result ≡ kept b word }
{
    match 1u32.checked_shl(b) {
        Some(power) => word % power,
        None => word,
    }
}

// The low b bits of the first n sums into the row's first places, as many as it has.
pub fn write_kept(b: u32, n: usize, sums: [u32; 8], row: &mut [u32])
    ensures { row.new ≡ over (map (kept b) (take n sums)) row.old }
{
    let words = sums.map(|sum| keep(b, sum));
    rows::copy(row, &words[..n.min(8)]);
}

// Whether there are key words for n sums of a message, at settings in range.
pub fn can_sum(w: u32, n: u32, message: usize, key: usize) -> bool
    ensures { result ≡ summable w n message key }
{
    if table::width(w).is_err() {
        return false;
    }
    if table::count(n).is_err() {
        return false;
    }
    let words = n as usize;
    if key < words {
        return false;
    }
    message <= key - words
}

// The range test of a message word, where it is asked for, and of a key.
pub fn rest_fits(w: u32, tested: bool, last: u32, key: &[u32]) -> bool
    ensures { result ≡ (tests tested w (last ∷ []) && fits w key.now) }
{
    (!tested || range::below(w, last)) && range::row_fits(w, key)
}
