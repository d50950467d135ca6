// Prints outputs of the generator, and single calls of next on given states, refused ones too: tests/run_mt19937.cpp prints the
// same lines by std::mt19937. Then the outputs of the published seed array, and what seed arrays of every length make, refused
// ones too: tests/run_mt19937.py prints the same by CPython's generator.
#![tactic(auto)]

use mt19937::Generator;
use mt19937_array::{from_array, no_generator};
use std::io;

// The next output; each output here is of a state that next accepts.
fn output(g: &mut Generator) -> u32 {
    g.next().unwrap_or(0)
}

// The outputs at the places from..=to, counted from 1: the seed, the place, the output.
fn print_outputs(rt: &impl Print, seed: u32, from: u64, to: u64) -> io::Result<()> {
    let mut g = Generator::new(seed);
    for _ in 1..from {
        output(&mut g);
    }
    for place in from..=to {
        let word = output(&mut g);
        println!(rt; "{seed} {place} {word}")?;
    }
    Ok(())
}

// All words in one, each turned by as many bits as words follow it; those 32 apart are turned alike.
fn folded(words: &[u32; 624]) -> u32 {
    words
        .iter()
        .fold(0u32, |fold, word| fold.rotate_left(1) ^ word)
}

// One next: the position before it, the answer, the word, and of the state that it gives the position and the words.
fn print_next(rt: &impl Print, words: [u32; 624], at: usize) -> io::Result<()> {
    let mut g = Generator { words, at };
    let next = g.next();
    let answer = answers::answer(next.map(|_| ()));
    let word = next.unwrap_or(0);
    let fold = folded(&g.words);
    println!(rt; "next {at} {answer} {word} {} {fold}", g.at)
}

// The edges of the position, on the words of a new state and on those of its first refill.
fn print_positions(rt: &impl Print, seed: u32) -> io::Result<()> {
    let mut g = Generator::new(seed);
    for at in [624, 625, 0xffff_ffff, usize::MAX] {
        print_next(rt, g.words, at)?;
    }
    output(&mut g);
    for at in [0, 623, 624, 625] {
        print_next(rt, g.words, at)?;
    }
    Ok(())
}

// The first 1,000 outputs of a seed array.
fn print_array_outputs(rt: &impl Print, seed: &[u32]) -> io::Result<()> {
    let mut g = from_array(seed).unwrap_or(no_generator());
    for place in 1..=1000 {
        let word = output(&mut g);
        println!(rt; "array {place} {word}")?;
    }
    Ok(())
}

// One making: how many words the seed has, the answer, and of the generator the position and the words.
fn print_made(rt: &impl Print, seed: &[u32]) -> io::Result<()> {
    let made = from_array(seed);
    let answer = answers::answer(made.map(|_| ()));
    let g = made.unwrap_or(no_generator());
    let fold = folded(&g.words);
    println!(rt; "made {} {answer} {} {fold}", seed.len(), g.at)
}

// The first words of a row as a seed, from none to all.
fn print_lengths(rt: &impl Print, row: &[u32]) -> io::Result<()> {
    for words in 0..=row.len() {
        print_made(rt, &row[..words])?;
    }
    Ok(())
}

fn main(rt: HostRuntime) -> io::Result<()> {
    print_outputs(&rt, 5489, 10000, 10000)?;
    print_outputs(&rt, 5489, 1, 5)?;
    print_outputs(&rt, 0, 1, 5)?;
    print_outputs(&rt, 1, 622, 627)?;
    print_outputs(&rt, 19650218, 1246, 1251)?;
    print_outputs(&rt, 4294967295, 1, 5)?;
    print_positions(&rt, 5489)?;
    print_array_outputs(&rt, &[0x123, 0x234, 0x345, 0x456])?;
    print_lengths(&rt, &[0; 9])?;
    print_lengths(&rt, &[u32::MAX; 9])?;
    print_lengths(&rt, &[1, 2, 3, 4, 5, 6, 7, 8, 9])
}
