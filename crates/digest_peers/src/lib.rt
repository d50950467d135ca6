// The digests of one message under the keys of up to sixteen peers.
#![tactic(auto)]

ghost use Rattle.std.specs.Prelude.{◌≡◌, ◌++◌, ◌*◌, ◌%◌, ◌≤◌, length, drop};
ghost use Rattle.answers.specs.Answers.{Validates};
ghost use Rattle.answers.specs.Refusals.{answer_of};
ghost use Rattle.digest_peers.specs.Call.{peers_answer, peers_row, peers_tests};
ghost use Rattle.digest_peers.specs.Kept.{kept_row, kept_rows};

use answers::{Refusal, table};

// The digests of the message under p keys, which lie end to end, into the first p·n places of out, row after row, or the first
// refusal.
pub fn digest_peers(
    w: u32,
    b: u32,
    n: u32,
    p: u32,
    message: &[u32],
    keys: &[u32],
    out: &mut [u32],
) -> Result<(), Refusal>
    ensures { (answer_of result ≡ peers_answer w b n p message.now keys.now out.old)
        × (out.new ≡ peers_row w b n p message.now keys.now out.old) }
{
    validate(w, b, n, p, message, keys, out)?;
    if !range::row_fits(w, keys) {
        return Err(Refusal::Word);
    }
    let Ok(rows) = sum_peers::row_sums(w, n, p, message, keys) else {
        return Err(Refusal::Word);
    };
    write_rows(b, n as usize, &rows[..p as usize], out);
    Ok(())
}

// All tests but Word.
fn validate(
    w: u32,
    b: u32,
    n: u32,
    p: u32,
    message: &[u32],
    keys: &[u32],
    out: &[u32],
) -> Result<(), Refusal>
    ensures { Validates (peers_tests w b n p message.now keys.now out.now) (answer_of result) }
{
    table::width(w)?;
    table::kept(w, b)?;
    table::count(n)?;
    table::peers(p)?;
    table::long(answers::MOST_MESSAGE, message.len())?;
    let peers = p as usize;
    let words = n as usize;
    table::key(peers * (message.len() + words), keys.len())?;
    table::tray(peers * words, out.len())
}

// The low b bits of the first n sums of each row, row after row, into the first places of out.
fn write_rows(b: u32, n: usize, rows: &[[u64; 8]], out: &mut [u32])
    requires { (b ≤ 32) × (n ≤ 8) × (length rows.now ≤ 16) × (length rows.now * n ≤ length out.old) }
    ensures { out.new ≡ kept_rows b n (length rows.now) rows.now ++ drop (length rows.now * n) out.old }
{
    for (q, sums) in rows.iter().enumerate() {
        write_row(b, sums, &mut out[q * n..q * n + n]);
    }
}

// The low b bits of the first sums into a row, as many as it has places. Sums of 64 bits: a row of 32 for
// sum_terms::write_kept would have to be made of them first.
fn write_row(b: u32, sums: &[u64; 8], row: &mut [u32])
    requires { (b ≤ 32) × (length row.old ≤ 8) }
    ensures { row.new ≡ kept_row b (length row.old) sums.now }
{
    for (i, place) in row.iter_mut().enumerate() {
        *place = sum_terms::keep(b, (sums[i] % 0x1_0000_0000) as u32);
    }
}
