// Prints document 01's worked digests, one line for each: letter, answer, digest words.
#![tactic(auto)]

use std::io;

// The line of one case; an output of two places is enough for each of them.
fn line(
    rt: &impl Print,
    letter: char,
    w: u32,
    b: u32,
    n: u32,
    message: &[u32],
    key: &[u32],
) -> io::Result<()> {
    let mut out = [0u32; 2];
    let answer = answers::answer(digest_words::digest_words(w, b, n, message, key, &mut out));
    let [first, second] = out;
    if n == 2 {
        println!(rt; "{letter} {answer} {first:08x} {second:08x}")
    } else {
        println!(rt; "{letter} {answer} {first:08x}")
    }
}

fn main(rt: HostRuntime) -> io::Result<()> {
    line(&rt, 'A', 8, 8, 1, &[1], &[5, 200])?;
    line(&rt, 'B', 8, 8, 1, &[255], &[255, 255])?;
    line(&rt, 'C', 8, 8, 2, &[3, 7], &[10, 20, 100, 250])?;
    line(&rt, 'D', 8, 4, 2, &[3, 7], &[10, 20, 100, 250])?;
    line(&rt, 'E', 32, 32, 1, &[u32::MAX], &[u32::MAX, u32::MAX])?;
    line(&rt, 'F', 8, 8, 1, &[], &[7])
}
