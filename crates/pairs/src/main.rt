// Joins of two lists, for counting instructions. The first byte of standard input says how the times of the lists lie to each
// other, the second how many records each has, and each further byte is one join. Prints the number, the count, the length of the
// rest and a sum over the third list, of the last join and of one with the lists the other way round.

#![tactic(auto)]

ghost use Rattle.std.specs.Prelude.{◌≤◌};

use probes::{Joined, join};
use std::io::Read;

// The next of a sequence of numbers that look random.
fn next(x: u32) -> u32 {
    let y = (x as u64 * 1103515245 + 12345) % 2147483648;
    y as u32
}

// The way is the letter of the input. From one record's time to the next: with `r`, runs of one list's records of random lengths; else 2, so that records alternate.
fn gap(way: u8, x: u32) -> u32 {
    if way != b'r' {
        return 2;
    }
    let y = x / 65536;
    if y % 8 == 0 { 20 } else { y % 3 }
}

// Fills a list with records from time `start` on: the words after a time look random.
fn fill(list: &mut [u32], way: u8, start: u32, seed: u32) {
    let mut time = start;
    let mut x = seed;
    for record in list.chunks_exact_mut(9) {
        x = next(x);
        record[0] = time;
        time = time.wrapping_add(gap(way, x));
        for word in &mut record[1..] {
            x = next(x);
            *word = x;
        }
    }
}

// The sum of the sums up to each word.
fn sum(list: &[u32]) -> u32 {
    let mut one: u32 = 0;
    let mut all: u32 = 0;
    for word in list {
        one = one.wrapping_add(*word);
        all = all.wrapping_add(one);
    }
    all
}

// The joins, one after another: what the last gave.
fn run<'a>(joins: usize, first: &'a [u32], second: &'a [u32], third: &mut [u32]) -> Joined<'a> {
    let mut last = Joined {
        count: Ok(0),
        rest: &[],
    };
    for _ in 0..joins {
        last = join(first, second, third);
    }
    last
}

// The words of so many records.
fn words_of(records: u8) -> usize
    ensures { result ≤ 2295 }
{
    records as usize * 9
}

// The time that the list with this letter begins with: late, if the input's letter is its own.
fn start_of(way: u8, own: u8, early: u32) -> u32 {
    if way == own { 10000 } else { early }
}

// Prints what the last join gave, and the sum of the third list.
fn show(rt: &impl Print, last: Joined, third: &[u32]) {
    let (number, count) = match last.count {
        Ok(count) => (0, count),
        Err(why) => (why.number(), 0),
    };
    let _ = println!(rt; "{number} {count} {} {}", last.rest.len(), sum(third));
}

// Makes two lists of so many words each, joins them so often, and once the other way round.
fn measure(rt: &impl Print, way: u8, n: usize, joins: usize)
    requires { n ≤ 2295 }
{
    let mut first = [0u32; 2295];
    let mut second = [0u32; 2295];
    let mut third = [0u32; 4590];
    fill(&mut first, way, start_of(way, b's', 0), 1);
    fill(&mut second, way, start_of(way, b'f', 1), 2);
    let there = run(joins, &first[0..n], &second[0..n], &mut third);
    show(rt, there, &third);
    let back = run(1, &second[0..n], &first[0..n], &mut third);
    show(rt, back, &third);
}

fn main(rt: HostRuntime) {
    let mut buf = [0u8; 4096];
    let bytes = rt.stdin().read(&mut buf).unwrap_or(0);
    measure(&rt, buf[0], words_of(buf[1]), bytes.saturating_sub(2));
}
