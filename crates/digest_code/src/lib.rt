// The code for the telephone: the one-word digest of message words as packed decimal digits.
#![tactic(auto)]

ghost use Rattle.std.specs.Prelude.{◌≡◌, ◌++◌, ◌+◌, ◌/◌, ◌≤◌, length, drop};
ghost use Rattle.answers.specs.Answers.{Validates};
ghost use Rattle.answers.specs.Refusals.{answer_of};
ghost use Rattle.digest_code.specs.Call.{code_answer, code_row, code_tests};
ghost use Rattle.digest_code.specs.Bytes.{last_byte, last_bytes};

use answers::{Refusal, table};

pub mod decimal;

// The code of d digits of the message under the key into the first places of out, two digits to a byte, or the first
// refusal.
pub fn digest_code(
    w: u32,
    d: u32,
    message: &[u32],
    key: &[u32],
    out: &mut [u8],
) -> Result<(), Refusal>
    ensures { (answer_of result ≡ code_answer w d message.now key.now out.old)
        × (out.new ≡ code_row w d message.now key.now out.old) }
{
    validate(w, d, message, key, out)?;
    let mut sums = [0u32; 8];
    if !sum_words::add_sums(w, 1, true, message, key, &mut sums) {
        return Err(Refusal::Word);
    }
    let number = u64::from(sums[0]) % decimal::power_of_ten(d);
    write_digits(number, bytes_of(d), out);
    Ok(())
}

// All tests but Word, which the walk makes. This is the one call with digits, so their row is checked here.
fn validate(w: u32, d: u32, message: &[u32], key: &[u32], out: &[u8]) -> Result<(), Refusal>
    ensures { Validates (code_tests w d message.now key.now out.now) (answer_of result) }
{
    table::width(w)?;
    Refusal::Digits.check(decimal::bad_digits(w, d))?;
    table::long(answers::MOST_MESSAGE, message.len())?;
    table::key(message.len() + 1, key.len())?;
    table::tray(bytes_of(d), out.len())
}

// How many bytes d digits take, for every d.
fn bytes_of(d: u32) -> usize
    ensures { result ≡ (d + 1) / 2 }
{
    d.div_ceil(2) as usize
}

// The number's last digits into the row's first places, two to a byte, the last byte first. By place, since the row may be longer.
fn write_digits(number: u64, places: usize, row: &mut [u8])
    requires { places ≤ length row.old }
    ensures { row.new ≡ last_bytes places number ++ drop places row.old }
{
    let mut rest = number;
    for place in (0..places).rev() {
        row[place] = last_byte(rest);
        rest /= 100;
    }
}

// The number's last two digits, the higher one in the byte's upper half.
fn last_byte(number: u64) -> u8
    ensures { result ≡ last_byte number }
{
    (number / 10 % 10 * 16 + number % 10) as u8
}
