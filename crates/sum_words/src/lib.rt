// n sums of one message, each under the lent key from one word further on: the walk, an odd last word, the key's last words.
#![tactic(auto)]

ghost use Rattle.std.specs.Prelude.{◌≡◌, ◌+◌, ◌%◌, ◌^◌, ◌≤◌, min, true, length, drop, slice_index};
ghost use Rattle.std.specs.Option.{option_to_list};
ghost use Rattle.rows.specs.Written.{written};
ghost use Rattle.theory_digest.specs.Digest.{whole_sum};
ghost use Rattle.sum_terms.specs.Sums.{summable, checked_sums, checked_fit};
ghost use Rattle.sum_walk.specs.Walk.{together, sum_at};

use sum_walk::Walked;

// Adds to the first n of the sums what the message adds, and answers whether the words that it reads fit: those of the
// message where it is tested, and of the key. Where the settings or the key do not suffice, it adds nothing and answers false;
// w and n come apart and untested, as through the C interface.
pub fn add_sums(
    w: u32,
    n: u32,
    tested: bool,
    message: &[u32],
    key: &[u32],
    sums: &mut [u32],
) -> bool
    ensures { (result ≡ checked_fit tested w n message.now key.now)
        × (sums.new ≡ checked_sums w n message.now key.now sums.old) }
{
    if !sum_terms::can_sum(w, n, message.len(), key.len()) {
        return false;
    }
    let walked = sum_walk::walk_pairs(w, n, tested, message, key);
    let done = message.len() / 2 * 2;
    let last = message.get(done).copied();
    finish(w, n, walked, last, &key[done..], sums);
    let rest = &key[done..message.len() + n as usize];
    // The word 0 fits every width: it stands for no last word.
    range::below(w, walked.bits) && sum_terms::rest_fits(w, tested, last.unwrap_or(0), rest)
}

// The held sums with those of the walk, and then with an odd last word. What the walk left comes by value: read here by a
// number that the compiler does not know, the walk's own rows would have to stand in memory.
fn finish(w: u32, n: u32, walked: Walked, last: Option<u32>, key: &[u32], sums: &mut [u32])
    requires { summable w n (length (option_to_list last)) (length key.now) ≡ true }
    ensures { sums.new
        ≡ written (λ i. (slice_index sums.old i + (sum_at w walked.low walked.high i + whole_sum w (option_to_list last) (drop i key.now))) % 2 ^ w) (min n (length sums.old)) sums.old }
{
    add_totals(w, n as usize, walked, sums);
    if let Some(last) = last {
        sum_edits::add_word(w, n, last, key, sums);
    }
}

// The held sums with those of the walk. By number: of sums whose `iter_mut` is zipped with the walk's rows a proof knows no
// element afterwards.
fn add_totals(w: u32, n: usize, walked: Walked, sums: &mut [u32])
    requires { (w ≤ 32) × (n ≤ 8) }
    ensures { sums.new
        ≡ written (λ i. (slice_index sums.old i + sum_at w walked.low walked.high i) % 2 ^ w) (min n (length sums.old)) sums.old }
{
    let places = sums.len().min(n);
    for (i, sum) in sums[..places].iter_mut().enumerate() {
        *sum = total(w, *sum, walked.low[i], walked.high[i]);
    }
}

// A held sum with one of the walk, modulo 2^w. `as` has to lose nothing, so `%` goes before it.
fn total(w: u32, sum: u32, low: u64, high: u64) -> u32
    requires { w ≤ 32 }
    ensures { result ≡ (sum + together w low high) % 2 ^ w }
{
    let walked = low.wrapping_add(high >> w);
    let whole = u64::from(sum).wrapping_add(walked);
    sum_terms::keep(w, (whole % 0x1_0000_0000) as u32)
}
