// Powers of ten that a word holds, and how many digits a code may have.
ghost use Rattle.std.specs.Prelude.{◌≡◌, min, ◌^◌};
ghost use Rattle.digest_code.specs.Digits.{bad_digits};

// 10^d, for d up to 9. 10^9 is the highest below 2^32, and a greater d gives it too.
pub fn power_of_ten(d: u32) -> u64
    ensures { result ≡ 10 ^ min d 9 }
{
    10u64.pow(d.min(9))
}

// 9 Digits. A width above 32, which no word has, counts as 32: 2^32 lies between 10^9 and 10^10.
pub fn bad_digits(w: u32, d: u32) -> bool
    ensures { result ≡ bad_digits (min w 32) d }
{
    !(1..=9).contains(&d) || 1 << w.min(32) < power_of_ten(d)
}
