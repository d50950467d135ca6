// The C interface: digests and their match. Each entry hands its rows on and promises what the function behind it promises. A slice passes as a
// pointer and a count.
#![tactic(auto)]

ghost use Rattle.std.specs.Prelude.{◌≡◌};
ghost use Rattle.digest_words.specs.Call.{digest_answer, digest_row};
ghost use Rattle.digest_bytes.specs.Call.{bytes_answer, bytes_row};
ghost use Rattle.digest_match.specs.Match.{match_answer};
ghost use Rattle.digest_code.specs.Call.{code_answer, code_row};
ghost use Rattle.digest_peers.specs.Call.{peers_answer, peers_row};

#[unsafe(no_mangle)]
pub extern "C" fn pairing_digest_words(
    w: u32,
    b: u32,
    n: u32,
    message: &[u32],
    key: &[u32],
    out: &mut [u32],
) -> u32
    ensures { (result ≡ digest_answer w b n message.now key.now out.old)
        × (out.new ≡ digest_row w b n message.now key.now out.old) }
{
    answers::answer(digest_words::digest_words(w, b, n, message, key, out))
}

#[unsafe(no_mangle)]
pub extern "C" fn pairing_digest_bytes(
    w: u32,
    b: u32,
    n: u32,
    message: &[u8],
    key: &[u32],
    out: &mut [u32],
) -> u32
    ensures { (result ≡ bytes_answer w b n message.now key.now out.old)
        × (out.new ≡ bytes_row w b n message.now key.now out.old) }
{
    answers::answer(digest_bytes::digest_bytes(w, b, n, message, key, out))
}

#[unsafe(no_mangle)]
pub extern "C" fn pairing_digest_code(
    w: u32,
    d: u32,
    message: &[u32],
    key: &[u32],
    out: &mut [u8],
) -> u32
    ensures { (result ≡ code_answer w d message.now key.now out.old)
        × (out.new ≡ code_row w d message.now key.now out.old) }
{
    answers::answer(digest_code::digest_code(w, d, message, key, out))
}

#[unsafe(no_mangle)]
pub extern "C" fn pairing_digest_peers(
    w: u32,
    b: u32,
    n: u32,
    p: u32,
    message: &[u32],
    keys: &[u32],
    out: &mut [u32],
) -> u32
    ensures { (result ≡ peers_answer w b n p message.now keys.now out.old)
        × (out.new ≡ peers_row w b n p message.now keys.now out.old) }
{
    answers::answer(digest_peers::digest_peers(w, b, n, p, message, keys, out))
}

#[unsafe(no_mangle)]
pub extern "C" fn pairing_match(n: u32, first: &[u32], second: &[u32]) -> u32
    ensures { result ≡ match_answer n first.now second.now }
{
    answers::match_answer(digest_match::digests_match(n, first, second))
}
