// The sums of a message of bytes: the words of the closed message are decoded block by block, and each block is summed as words are.
#![tactic(auto)]

ghost use Rattle.std.specs.Prelude.{◌≡◌, true, false, ◌+◌, ◌*◌, ◌/◌, ◌≤◌, length, get_or, MatchOption};
ghost use Rattle.answers.specs.Table.{bad_byte_width};
ghost use Rattle.sum_terms.specs.Sums.{summable};
ghost use Rattle.sum_bytes.specs.Bytes.{little_endian, words_from, closed, words_in, sums_from, fit_from, checked_bytes, checked_bytes_fit};
ghost use Rattle.sum_bytes.specs.Sizes.{bytes_of};

// How many bytes a word of a byte width has: a type, so that no contract has to say that they are 1, 2 or 4.
#[derive(Clone, Copy)]
enum WordSize {
    One,
    Two,
    Four,
}

impl WordSize {
    // That of width w, where w is a byte width.
    #[tactic(auto, unfolding(answers::specs::Table::bad_byte_width))]
    fn of_width(w: u32) -> Option<WordSize>
        ensures { MatchOption result (bad_byte_width w ≡ true) (λ size. (bad_byte_width w ≡ false) × (w ≡ 8 * bytes_of size)) }
    {
        match w {
            8 => Some(WordSize::One),
            16 => Some(WordSize::Two),
            32 => Some(WordSize::Four),
            _ => None,
        }
    }

    // The bytes in a word.
    fn bytes(self) -> usize
        ensures { result ≡ bytes_of self }
    {
        match self {
            WordSize::One => 1,
            WordSize::Two => 2,
            WordSize::Four => 4,
        }
    }

    // How many words so many bytes fill. A division for each size: the compiler makes a shift of each.
    fn full_words(self, bytes: usize) -> usize
        ensures { result ≡ bytes / bytes_of self }
    {
        match self {
            WordSize::One => bytes,
            WordSize::Two => bytes / 2,
            WordSize::Four => bytes / 4,
        }
    }
}

// Adds to the first n of the sums what the words that the bytes make add, at widths 8, 16 and 32, and answers whether the
// key's words that it reads fit. At any other width, and where the settings or the key do not suffice, it adds nothing and
// answers false. A short message is one block, in a row that costs less to make.
pub fn sums_of_bytes(w: u32, n: u32, message: &[u8], key: &[u32], sums: &mut [u32]) -> bool
    ensures { (result ≡ checked_bytes_fit w n message.now key.now)
        × (sums.new ≡ checked_bytes w n message.now key.now sums.old) }
{
    let Some(size) = WordSize::of_width(w) else {
        return false;
    };
    let full = size.full_words(message.len());
    if !sum_terms::can_sum(w, n, full + 1, key.len()) {
        return false;
    }
    match full {
        ..64 => sum_blocks::<64>(w, size, n, full, message, key, sums),
        ..256 => sum_blocks::<256>(w, size, n, full, message, key, sums),
        _ => sum_blocks::<1024>(w, size, n, full, message, key, sums),
    }
}

// How many words of a byte width the bytes make; 0 at any other width.
pub fn words_in(w: u32, message: &[u8]) -> usize
    ensures { result ≡ words_in w message.now }
{
    match WordSize::of_width(w) {
        Some(size) => size.full_words(message.len()) + 1,
        None => 0,
    }
}

// The sums with the full words and one more, a block of at most N at a time, and whether all that they read fits. Words of
// bytes fit, and are not tested. Counted from the full words, fewer than N are seen by the compiler to be one block.
fn sum_blocks<const N: usize>(
    w: u32,
    size: WordSize,
    n: u32,
    full: usize,
    message: &[u8],
    key: &[u32],
    sums: &mut [u32],
) -> bool
    requires { (summable w n (full + 1) (length key.now) ≡ true) × (1 ≤ N) × (N ≤ 1024) × (full * bytes_of size ≤ length message.now) }
    ensures { (result ≡ fit_from w n (bytes_of size) (full + 1) message.now key.now)
        × (sums.new ≡ sums_from w n (bytes_of size) (full + 1) message.now key.now sums.old) }
{
    let t = full + 1;
    let mut row = [0; N];
    let mut fit = true;
    for block in 0..full / N + 1 {
        let at = block * N;
        let words = &mut row[..N.min(t - at)];
        decode(size, &message[at * size.bytes()..], words);
        fit &= sum_words::add_sums(w, n, false, words, &key[at..], sums);
    }
    fit
}

// As many words as the row has places. Only the last of them can lack bytes of the message; it then has the closing byte.
fn decode(size: WordSize, bytes: &[u8], row: &mut [u32])
    requires { length row.old * bytes_of size ≤ length bytes.now + bytes_of size }
    ensures { row.new ≡ words_from (bytes_of size) (length row.old) (closed bytes.now) }
{
    let full = row.len().min(size.full_words(bytes.len()));
    decode_full(size, bytes, &mut row[..full]);
    if full < row.len() {
        let at = full * size.bytes();
        row[full] = last(&bytes[at..]);
    }
}

// As many full words as the row has places. A call for each size: the compiler makes a loop of its own of each.
fn decode_full(size: WordSize, bytes: &[u8], row: &mut [u32])
    requires { length row.old * bytes_of size ≤ length bytes.now }
    ensures { row.new ≡ words_from (bytes_of size) (length row.old) bytes.now }
{
    match size {
        WordSize::One => decode_run::<1>(bytes, row),
        WordSize::Two => decode_run::<2>(bytes, row),
        WordSize::Four => decode_run::<4>(bytes, row),
    }
}

// The words of C bytes each. Of a row that is written through `zip` a proof knows nothing, so each word finds its own bytes.
fn decode_run<const C: usize>(bytes: &[u8], row: &mut [u32])
    requires { (C ≤ 4) × (length row.old * C ≤ length bytes.now) }
    ensures { row.new ≡ words_from C (length row.old) bytes.now }
{
    for (i, word) in row.iter_mut().enumerate() {
        *word = load::<C>(&bytes[i * C..]);
    }
}

// The word of the first C bytes, over zeros.
fn load<const C: usize>(bytes: &[u8]) -> u32
    requires { (C ≤ 4) × (C ≤ length bytes.now) }
    ensures { result ≡ little_endian C bytes.now }
{
    let mut word = [0; 4];
    word[..C].copy_from_slice(&bytes[..C]);
    u32::from_le_bytes(word)
}

// The word of the bytes that no word has taken, with the closing byte, filled up with zero bytes.
fn last(bytes: &[u8]) -> u32
    ensures { result ≡ little_endian 4 (closed bytes.now) }
{
    u32::from_le_bytes([
        byte_at(bytes, 0),
        byte_at(bytes, 1),
        byte_at(bytes, 2),
        byte_at(bytes, 3),
    ])
}

// A byte of the closed message, and 0 past its end: so the closing byte needs no copy of the message.
fn byte_at(bytes: &[u8], i: usize) -> u8
    ensures { result ≡ get_or (closed bytes.now) i 0 }
{
    match bytes.get(i) {
        Some(byte) => *byte,
        None if i == bytes.len() => 0x80,
        None => 0,
    }
}
