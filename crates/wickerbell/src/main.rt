//! The program: reads model.rec and rule.rec where it is run, decides with S = 4,096 and P = 2,048, and prints the answer.
#![tactic(auto)]

ghost use Rattle.std.specs.Prelude.{◌≤◌, length};

use inclusion::Answer;
use search::{Lent, Room};
use std::fs::File;
use std::io;
use std::io::Read;
use std::rt::Files;

// As many bytes of a file as fit; none of a file that cannot be opened.
fn read_file(rt: &impl Files, path: &str, buffer: &mut [u8]) -> usize
    ensures { result ≤ length buffer.new }
{
    match File::open(rt, path) {
        Ok(file) => read_full(file, buffer),
        Err(_) => 0,
    }
}

// Reads until the buffer is full, the input ends or a read fails, and returns how many bytes stand at the buffer's start.
// Each read but the last gives at least one, so that there are no more reads than bytes that fit.
fn read_full<R: Read + Drop>(mut file: R, buffer: &mut [u8]) -> usize
    ensures { result ≤ length buffer.new }
{
    let mut done = 0;
    for _ in 0..buffer.len() {
        match file.read(&mut buffer[done..]) {
            Ok(0) | Err(_) => break,
            Ok(n) => done += n,
        }
    }
    done
}

// The word in an output's first bytes: its name, and for each letter a space and a decimal number.
fn print_word(rt: &impl Print, name: &str, output: &[u8], count: usize) -> io::Result<()> {
    print!(rt; "{name}")?;
    for letter in output.iter().take(count) {
        print!(rt; " {letter}")?;
    }
    println!(rt)
}

// Each line is written by itself, and of a word each letter: where the output ends midway, all that came before is there.
fn print(rt: &impl Print, answer: Answer, stem: &[u8], period: &[u8]) -> io::Result<()> {
    match answer {
        Answer::Included(counts) => {
            println!(rt; "INCLUDED")?;
            println!(rt; "{counts}")
        }
        Answer::NotIncluded(counts, lengths) => {
            println!(rt; "NOT INCLUDED")?;
            println!(rt; "{counts}")?;
            print_word(rt, "stem:", stem, lengths.stem)?;
            print_word(rt, "period:", period, lengths.period)
        }
        Answer::Refused(refusal, counts) => {
            println!(rt; "REFUSED {refusal}")?;
            println!(rt; "{counts}")
        }
    }
}

fn decide(rt: &impl Print, model: &[u8], rule: &[u8]) -> io::Result<()> {
    let mut smallest = [0u32; 4096];
    let mut largest = [0u32; 4096];
    let mut links = [0u32; 2048];
    let mut contexts = [0u64; 4096];
    let mut stem = [0u8; 4096];
    let mut period = [0u8; 2048];
    let mut lent = Lent {
        smallest: &mut smallest,
        largest: &mut largest,
        links: &mut links,
        contexts: &mut contexts,
        stem: &mut stem,
        period: &mut period,
    };
    let room = Room {
        stems: 4096,
        periods: 2048,
    };
    let answer = inclusion::decide(model, rule, room, &mut lent);
    print(rt, answer, &stem, &period)
}

fn main(rt: HostRuntime) -> io::Result<()> {
    let mut model = [0u8; 16456];
    let mut rule = [0u8; 16456];
    let a = read_file(&rt, "model.rec", &mut model);
    let b = read_file(&rt, "rule.rec", &mut rule);
    decide(&rt, &model[..a], &rule[..b])
}
