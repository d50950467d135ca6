// n sums with one message word more, or less.
#![tactic(auto)]

ghost use Rattle.std.specs.Prelude.{◌≡◌, ℕ, ◌+◌, ◌*◌, ◌%◌, ◌^◌, ◌≤◌, min, [], ◌∷◌, length, slice_index, if◌then◌else◌};
ghost use Rattle.rows.specs.Written.{written};
ghost use Rattle.sum_terms.specs.Sums.{summable, checked_sums, checked_less};
ghost use Rattle.sum_walk.specs.Walk.{together, added};
ghost use Rattle.sum_edits.specs.Steps.{Adds};

// Adds to the first n of the sums what the message word m adds; `part` is the key from the word under m on. Where the
// settings or the key do not suffice, it adds nothing; w and n come apart and untested, as through the C interface. The step
// is a closure: of the path `u32::wrapping_add` as a value a proof learns nothing.
pub fn add_word(w: u32, n: u32, m: u32, part: &[u32], sums: &mut [u32])
    ensures { sums.new ≡ checked_sums w n (m ∷ []) part.now sums.old }
{
    change_sums(w, n, m, part, sums, |sum, share| sum.wrapping_add(share));
}

// Takes the same off.
pub fn subtract_word(w: u32, n: u32, m: u32, part: &[u32], sums: &mut [u32])
    ensures { sums.new ≡ checked_less w n (m ∷ []) part.now sums.old }
{
    change_sums(w, n, m, part, sums, |sum, share| sum.wrapping_sub(share));
}

// One loop for both: the step of each of the first n sums with its share of the word, modulo 2^w. By number: of sums whose
// `iter_mut` is zipped with the key a proof knows no element afterwards.
fn change_sums<F: Fn(u32, u32) -> u32>(
    w: u32,
    n: u32,
    m: u32,
    part: &[u32],
    sums: &mut [u32],
    step: F,
)
    requires { F.IsAlwaysCallable step }
    ensures { (to : ℕ → ℕ) → Adds w to (F.post step) → sums.new
        ≡ (if summable w n 1 (length part.now) then written (λ i. (slice_index sums.old i + to (added w part.now i m % 2 ^ 32)) % 2 ^ w) (min n (length sums.old)) sums.old else sums.old) }
{
    if !sum_terms::can_sum(w, n, 1, part.len()) {
        return;
    }
    let places = sums.len().min(n as usize);
    for (i, sum) in sums[..places].iter_mut().enumerate() {
        *sum = sum_terms::keep(w, step(*sum, share(w, m, part[i], part[i + 1])));
    }
}

// What the word m adds over two words of the key, its low 32 bits. `as` has to lose nothing, so `%` goes before it.
fn share(w: u32, m: u32, k: u32, next: u32) -> u32
    requires { w ≤ 32 }
    ensures { result ≡ together w (m * k) (m * next) % 2 ^ 32 }
{
    let high = sum_terms::product(m, next) >> w;
    let whole = sum_terms::product(m, k).wrapping_add(high);
    (whole % 0x1_0000_0000) as u32
}
