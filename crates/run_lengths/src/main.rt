// Counts, for each message of one byte, the keys under which its digest matches that of the message of no bytes, at width 8.
#![tactic(auto)]

ghost use Rattle.std.specs.Prelude.{◌≡◌, true, [], ◌∷◌, ◌+◌, ◌<◌, ◌≤◌};
ghost use Rattle.rows.specs.Written.{tabulate};
ghost use Rattle.theory_counts.specs.Count.{sum_to};
ghost use Rattle.theory_counts.specs.Largest.{Largest};
ghost use Rattle.digest_bytes.specs.Call.{bytes_answer};
ghost use Rattle.run_lengths.specs.Agree.{keys_of, digest_word, last_word, agrees_at};
ghost use Rattle.theory_digest.specs.Claims.{most_keys};

use std::cmp::Ordering;
use std::{array, fmt, io};

// The one word of the digest of a message and a key that the call accepts.
fn digest(message: &[u8], key: &[u32]) -> u8
    requires { bytes_answer 8 8 1 message.now key.now (0 ∷ []) ≡ 0 }
    ensures { result ≡ digest_word message.now key.now }
{
    let mut out = [0u32];
    let _ = digest_bytes::digest_bytes(8, 8, 1, message, key, &mut out);
    out[0] as u8
}

// The digest of the message of no bytes.
fn digest_of_none(first: u32, second: u32) -> u8
    requires { (first < 256) × (second < 256) }
    ensures { result ≡ digest_word [] (first ∷ second ∷ []) }
{
    digest(&[], &[first, second])
}

// The digest of a message of one byte, without what the last of the key's three words adds.
fn digest_of_one(byte: u8, first: u32, second: u32) -> u8
    requires { (first < 256) × (second < 256) }
    ensures { result ≡ digest_word (byte ∷ []) (first ∷ second ∷ 0 ∷ []) }
{
    digest(&[byte], &[first, second, 0])
}

// What each last key word adds.
fn last_words() -> [u8; 256]
    ensures { result ≡ tabulate last_word 256 }
{
    array::from_fn(|k| digest_of_none(0, k as u32))
}

// How many last key words make the message's digest the one that is wanted.
fn agreeing(wanted: u8, start: u8, lasts: &[u8; 256]) -> u32
    ensures { (result ≡ sum_to 256 (agrees_at wanted start lasts.now)) × (result ≤ 256) }
{
    lasts
        .iter()
        .map(|last| u32::from(wanted == start.wrapping_add(*last)))
        .sum()
}

// How many keys of three words make the message match the message of no bytes.
fn keys_of(byte: u8, lasts: &[u8; 256]) -> u32
    requires { lasts.now ≡ tabulate last_word 256 }
    ensures { result ≡ keys_of byte }
{
    let mut count = 0;
    for first in 0..256 {
        for second in 0..256 {
            let wanted = digest_of_none(first, second);
            let start = digest_of_one(byte, first, second);
            count += agreeing(wanted, start, lasts);
        }
    }
    count
}

// The largest count of the messages so far, the first message that has it, and how many have it.
#[derive(Clone, Copy)]
struct Best {
    largest: u32,
    first: u32,
    messages: u32,
}

impl Best {
    // The best with one message more.
    fn with(self, byte: u32, keys: u32) -> Best
        requires { (byte < 256) × ((keys ≡ keys_of byte) × Largest (λ _. true) keys_of byte self.largest self.first self.messages) }
        ensures { Largest (λ _. true) keys_of (byte + 1) result.largest result.first result.messages }
    {
        match keys.cmp(&self.largest) {
            Ordering::Less => self,
            Ordering::Equal => Best {
                messages: self.messages + 1,
                ..self
            },
            Ordering::Greater => Best {
                largest: keys,
                first: byte,
                messages: 1,
            },
        }
    }
}

impl fmt::Display for Best {
    fn fmt<W: fmt::Write>(&self, f: &mut fmt::Formatter<W>) -> fmt::Result {
        let Best {
            largest,
            first,
            messages,
        } = *self;
        writeln!(
            f,
            "largest count of keys under which the two match: {largest}"
        )?;
        writeln!(f, "first label that reaches it: {first}")?;
        write!(f, "labels that reach it: {messages}")
    }
}

fn search() -> Best
    ensures { Largest (λ _. true) keys_of 256 result.largest result.first result.messages }
{
    let lasts = last_words();
    let mut best = Best {
        largest: keys_of(0, &lasts),
        first: 0,
        messages: 1,
    };
    for byte in 1..256 {
        best = best.with(byte, keys_of(byte as u8, &lasts));
    }
    best
}

// How many keys the claims allow.
fn most() -> u64
    ensures { result ≡ most_keys 8 8 1 2 }
{
    131072
}

fn main(rt: HostRuntime) -> io::Result<()> {
    let best = search();
    println!(rt;
        "width 8, kept 8, one digest word: the label of no bytes and each of 256 labels of one byte, 16777216 keys"
    )?;
    println!(rt; "{best}")?;
    println!(rt; "bound: {}", most())
}
