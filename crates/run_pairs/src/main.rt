// Counts, for every pair of different one-word messages of seven bits, the keys under which their digests agree, and
// those under which their codes of one and of two digits do.
#![tactic(auto)]

ghost use Rattle.std.specs.Prelude.{◌≡◌, ◌<◌, length};
ghost use Rattle.theory_counts.specs.Count.{sum_to};
ghost use Rattle.theory_pairs.specs.Agree.{agreeing, bound_of};
ghost use Rattle.run_pairs.specs.Values.{ValueOf, Valued, AllValued, agreeing_rows, agreeing_in};
ghost use Rattle.run_pairs.specs.Number.{number_of, digits_of};
ghost use Rattle.theory_pairs.specs.Search.{cell_at, Filled, First, stands_at, LargestPair};

use digest_code::decimal;
use std::{array, fmt, io};

// What an end compares, one word or one byte: the digest, or its code.
#[derive(Clone, Copy)]
enum Compared {
    Digest,
    OneDigit,
    TwoDigits,
}

impl Compared {
    // The digits of the code, where a code is compared.
    fn digits(self) -> Option<u32>
        ensures { result ≡ digits_of self }
    {
        match self {
            Compared::Digest => None,
            Compared::OneDigit => Some(1),
            Compared::TwoDigits => Some(2),
        }
    }
}

impl fmt::Display for Compared {
    fn fmt<W: fmt::Write>(&self, f: &mut fmt::Formatter<W>) -> fmt::Result {
        f.write_str(match self {
            Compared::Digest => "kept 7, one digest word",
            Compared::OneDigit => "code of 1 digit",
            Compared::TwoDigits => "code of 2 digits",
        })
    }
}

// Row m has the values of the message m under all keys. Arrays, since all sizes are fixed: a Vec would be no plainer.
type Values = [[u8; 16384]; 128];

fn value(what: Compared, m: u32, key: u32) -> u8
    requires { (m < 128) × (key < 16384) }
    ensures { ValueOf (number_of what) m key result }
{
    let message = [m];
    let words = [key / 128, key % 128];
    match what.digits() {
        None => {
            let mut sums = [0u32; 8];
            sum_words::add_sums(7, 1, true, &message, &words, &mut sums);
            sums[0] as u8
        }
        Some(digits) => {
            let mut out = [0u8];
            let _ = digest_code::digest_code(7, digits, &message, &words, &mut out);
            out[0]
        }
    }
}

// What is compared is asked outside the walks, so that the compiler knows it in each: asked at every key, a search took a fifth longer.
fn values_of(what: Compared, m: u32) -> [u8; 16384]
    requires { m < 128 }
    ensures { Valued (number_of what) m result 16384 }
{
    match what {
        Compared::Digest => array::from_fn(|key| value(Compared::Digest, m, key as u32)),
        Compared::OneDigit => array::from_fn(|key| value(Compared::OneDigit, m, key as u32)),
        Compared::TwoDigits => array::from_fn(|key| value(Compared::TwoDigits, m, key as u32)),
    }
}

// In place, since the table takes two megabytes.
fn fill_values(what: Compared, values: &mut Values)
    requires { length values.old ≡ 128 }
    ensures { AllValued (number_of what) values.new 128 }
{
    for (m, row) in values.iter_mut().enumerate() {
        *row = values_of(what, m as u32);
    }
}

// How many keys give both messages one value.
fn agreeing_keys(first: &[u8; 16384], second: &[u8; 16384]) -> u32
    ensures { result ≡ agreeing_rows first.now second.now }
{
    first
        .iter()
        .zip(second)
        .map(|(a, b)| u32::from(a == b))
        .sum()
}

// The count at a place of the row of pairs, first · 128 + second: in one row the largest, its first place and how often it
// stands are a walk each, where a table of rows would take two.
fn cell(values: &Values, place: usize) -> u32
    requires { place < 16384 }
    ensures { result ≡ cell_at (agreeing_in values.now) place }
{
    let first = place / 128;
    let second = place % 128;
    if first < second {
        agreeing_keys(&values[first], &values[second])
    } else {
        0
    }
}

fn all_counts(values: &Values) -> [u32; 16384]
    ensures { Filled (agreeing_in values.now) result 16384 }
{
    array::from_fn(|place| cell(values, place))
}

// The first place with the largest number.
fn first_largest(counts: &[u32; 16384]) -> usize
    ensures { First counts.now 16384 result }
{
    let mut at = 0;
    for (i, count) in counts.iter().enumerate() {
        if counts[at] < *count {
            at = i;
        }
    }
    at
}

fn times(counts: &[u32; 16384], x: u32) -> usize
    ensures { result ≡ sum_to 16384 (stands_at counts.now x) }
{
    counts.iter().filter(|count| **count == x).count()
}

#[derive(Clone, Copy)]
struct Answer {
    largest: u32,
    first: usize,
    second: usize,
    pairs: usize,
}

impl fmt::Display for Answer {
    fn fmt<W: fmt::Write>(&self, f: &mut fmt::Formatter<W>) -> fmt::Result {
        let Answer {
            largest,
            first,
            second,
            pairs,
        } = *self;
        writeln!(
            f,
            "largest count of keys under which a pair agrees: {largest}"
        )?;
        writeln!(f, "first pair that reaches it: {first} and {second}")?;
        write!(f, "pairs that reach it: {pairs}")
    }
}

fn search(what: Compared) -> Answer
    ensures { LargestPair (agreeing (number_of what)) result.largest result.first result.second result.pairs }
{
    let mut values = [[0u8; 16384]; 128];
    fill_values(what, &mut values);
    let counts = all_counts(&values);
    let at = first_largest(&counts);
    let largest = counts[at];
    let pairs = times(&counts, largest);
    Answer {
        largest,
        first: at / 128,
        second: at % 128,
        pairs,
    }
}

// How many keys the claims allow: 2^8 for a digest, (2F + 1)·2^8 for a code, F being 127 div 10^d.
fn bound(what: Compared) -> u64
    ensures { result ≡ bound_of (number_of what) }
{
    match what.digits() {
        None => 256,
        Some(digits) => (2 * (127 / decimal::power_of_ten(digits)) + 1) * 256,
    }
}

// The lines on what is compared. The first words are written before the search, which takes longest: where nothing can be written,
// nothing is searched.
fn report(rt: &impl Print, what: Compared) -> io::Result<()> {
    print!(rt; "width 7, {what}")?;
    let answer = search(what);
    let bound = bound(what);
    println!(rt; ", one-word messages: 8128 pairs of different messages, 16384 keys")?;
    println!(rt; "{answer}")?;
    println!(rt; "bound: {bound}")
}

fn main(rt: HostRuntime) -> io::Result<()> {
    for what in [Compared::Digest, Compared::OneDigit, Compared::TwoDigits] {
        report(&rt, what)?;
    }
    Ok(())
}
