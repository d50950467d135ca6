// The sums of several peers over one message: a row of running sums for each. The message is walked once, two words to a turn: they
// are loaded once for all rows, and each row is updated in place before the next two are loaded.
#![tactic(auto)]

ghost use Rattle.std.specs.Prelude.{◌≡◌, ◌+◌, ◌*◌, ◌/◌, ◌%◌, ◌^◌, ◌<◌, ◌≤◌, ◌∷◌, length, drop};
ghost use Rattle.std.specs.List.{concat};
ghost use Rattle.theory_counts.specs.Words.{fits};
ghost use Rattle.theory_digest.specs.Digest.{whole_sum};
ghost use Rattle.sum_peers.specs.Peers.{RowAccumulated, RowsAccumulated, Sixteen, zeros, PeersResult};

use answers::table;
use sum_terms::product;

// The first n sums of each of the first p rows are those of the message under the peer's key, of which each has n words more than the
// message and which lie end to end. They are Ok where the message's words fit, and Err where not. Where the settings or the keys do
// not suffice, the rows are zeros, in Err.
pub fn row_sums(
    w: u32,
    n: u32,
    p: u32,
    message: &[u32],
    keys: &[u32],
) -> Result<[[u64; 8]; 16], [[u64; 8]; 16]>
    ensures { PeersResult w n p message.now keys.now result }
{
    let mut rows = [[0u64; 8]; 16];
    if table::peers(p).is_err() {
        return Err(rows);
    }
    if !sum_terms::can_sum(w, n, message.len(), keys.len() / (p as usize)) {
        return Err(rows);
    }
    let n = n as usize;
    let size = message.len() + n;
    let peers = Peers {
        w,
        n,
        p: p as usize,
        size,
        keys,
    };
    if peers.add_message(message, &mut rows) {
        Ok(rows)
    } else {
        Err(rows)
    }
}

// What the rows are summed with: words of w bits, n sums for a peer, and the keys of p peers, of size words each. The rows are
// sixteen of eight whatever n and p are: the papers ask for them so, and there is no heap.
#[derive(Drop)]
struct Peers<'a> {
    w: u32,
    n: usize,
    p: usize,
    size: usize,
    keys: &'a [u32],
    ghost width: { w ≤ 32 },
    ghost sums: { n ≤ 8 },
    ghost peers: { p ≤ 16 },
    ghost whole: { p * size ≤ length keys.now },
}

impl Peers<'_> {
    // Adds the message, in pairs of words and an odd last one, and answers whether its words fit.
    fn add_message(&self, message: &[u32], rows: &mut [[u64; 8]; 16]) -> bool
        requires { (rows.old ≡ zeros) × (length message.now + self.now.n ≤ self.now.size) }
        ensures { RowsAccumulated self.now.w self.now.n self.now.p self.now.size message.now self.now.keys.now rows.old rows.new
            × (result ≡ fits self.now.w message.now) }
    {
        let (pairs, rest) = message.as_chunks::<2>();
        let fit = self.add_pairs(pairs, rows);
        let [last] = rest else {
            return fit;
        };
        self.add_to_rows([*last], message.len() - 1, rows);
        fit & range::below(self.w, *last)
    }

    // Adds pairs of words and answers whether they fit. Each word is loaded once, and every peer's row has it before the next pair is
    // loaded. The words' bits are joined, so that one test at the end is of all words.
    fn add_pairs(&self, pairs: &[[u32; 2]], rows: &mut [[u64; 8]; 16]) -> bool
        requires { (rows.old ≡ zeros) × (length pairs.now * 2 + self.now.n ≤ self.now.size) }
        ensures { RowsAccumulated self.now.w self.now.n self.now.p self.now.size (concat pairs.now) self.now.keys.now rows.old rows.new
            × (result ≡ fits self.now.w (concat pairs.now)) }
    {
        let mut bits: u32 = 0;
        for (j, &pair) in pairs.iter().enumerate() {
            bits |= pair[0] | pair[1];
            self.add_to_rows(pair, j * 2, rows);
        }
        range::below(self.w, bits)
    }

    // Adds message words, of which the first is word j, to n sums of each row, peer by peer, in place.
    fn add_to_rows<const K: usize>(&self, words: [u32; K], j: usize, rows: &mut [[u64; 8]; 16])
        requires { Sixteen rows.old × (j + (K + self.now.n) ≤ self.now.size) }
        ensures { RowsAccumulated self.now.w self.now.n self.now.p self.now.size words.entry (drop j self.now.keys.now) rows.old rows.new }
    {
        for (q, sums) in rows[..self.p].iter_mut().enumerate() {
            self.add_to_row(words, &self.keys[q * self.size + j..], sums);
        }
    }

    // Adds message words to n sums, each under its own words of the key's part, modulo 2^64: a sum is loaded and stored once for all,
    // and loaded last, since it waits for the turn before.
    fn add_to_row<const K: usize>(&self, words: [u32; K], part: &[u32], sums: &mut [u64; 8])
        requires { (length sums.old ≡ 8) × (self.now.n + K ≤ length part.now) }
        ensures { RowAccumulated self.now.w self.now.n words.entry part.now sums.old sums.new }
    {
        for (i, sum) in sums[..self.n].iter_mut().enumerate() {
            let more = words_add(self.w, words, part[i], &part[i + 1..]);
            *sum = sum.wrapping_add(more);
        }
    }
}

// What message words add to a sum under a key word and the next ones, modulo 2^64. The compiler unrolls the loop.
fn words_add<const K: usize>(w: u32, words: [u32; K], first: u32, nexts: &[u32]) -> u64
    requires { (w ≤ 32) × (K ≤ length nexts.now) }
    ensures { result ≡ whole_sum w words.entry (first ∷ nexts.now) % 2 ^ 64 }
{
    let mut sum = 0u64;
    let mut key = first;
    for (j, word) in words.iter().enumerate() {
        let next = nexts[j];
        sum = sum.wrapping_add(word_adds(w, *word, key, next));
        key = next;
    }
    sum
}

// What the word m adds to a sum under a key word and the next one, modulo 2^64. The wrap is meant.
fn word_adds(w: u32, m: u32, key: u32, next: u32) -> u64
    requires { w ≤ 32 }
    ensures { result ≡ (m * key + m * next / 2 ^ w) % 2 ^ 64 }
{
    product(m, key).wrapping_add(product(m, next) >> w)
}
