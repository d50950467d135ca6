// Rows of key words: the next outputs of a generator, of each the upper bits.
ghost use Rattle.std.specs.Prelude.{◌≡◌, ◌+◌, ◌-◌, ◌≤◌, ◌<◌, min, length};
ghost use Rattle.rows.specs.Written.{tabulate};
ghost use Rattle.mt19937.specs.Published.{generator, temper};
ghost use Rattle.stretch.specs.Stretch.{after, key_word, key_from, key_row};

use mt19937::Generator;

// The key word that a state word gives.
fn key_word(w: u32, y: u32) -> u32
    requires { (1 ≤ w) × (w ≤ 32) }
    ensures { result ≡ key_word w (temper y) }
{
    mt19937::temper_word(y) >> (Generator::OUTPUT_BITS - w)
}

// The key words of the state words from a position on, as many as there are places. Of places zipped with the state words a proof would
// know no word afterwards.
fn temper_block(w: u32, words: &[u32; 624], from: usize, out: &mut [u32])
    requires { (1 ≤ w) × (w ≤ 32) × (from + length out.old ≤ 624) }
    ensures { out.new ≡ tabulate (key_from w words.now from) (length out.old) }
{
    for (i, place) in out.iter_mut().enumerate() {
        *place = key_word(w, words[from + i]);
    }
}

// Where the block ends that begins at a place of the row: with the state's last word, or with the row.
fn block_end(from: usize, done: usize, n: usize) -> usize
    requires { (from ≤ 624) × (done < n) }
    ensures { result ≡ min (done + (624 - from)) n }
{
    done + (Generator::SIZE - from).min(n - done)
}

// The whole row from a state and its position on; gives the position after it. Blocks spare a test for each word. The first block is as
// long as what is left of the state, so no chunks of one length fit. The width stays a number, as the entries
// hand it on; words and position come apart, as `make_ready` takes them.
pub(crate) fn key_row(w: u32, words: &mut [u32; 624], at: usize, out: &mut [u32]) -> usize
    requires { (1 ≤ w) × (w ≤ 32) × (at ≤ 624) }
    ensures { (out.new ≡ key_row w (generator words.old at) (length out.old))
        × (generator words.new result ≡ after (length out.old) (generator words.old at))
        × (result ≤ 624) }
{
    let n = out.len();
    let mut used = at;
    let mut done = 0;
    while done < n {
        let from = mt19937::make_ready(words, used);
        let end = block_end(from, done, n);
        temper_block(w, words, from, &mut out[done..end]);
        used = from + (end - done);
        done = end;
    }
    used
}
