// Laps of a batch, for counting instructions: one lap for each byte of standard input. A lap hands each of sixteen lines over
// from the memory to cache 0 with both acknowledgments, writes it, and hands it back: 144 events, all accepted. The first byte
// says how many of them a lap runs.

#![tactic(auto)]

use rules::kinds::Kind;
use std::io::Read;

// The words of an event.
fn event(kind: Kind, line: u32, node: u32, other: u32) -> [u32; 8] {
    let amount = if kind == Kind::Send { 5 } else { 0 };
    [kind as u32, line, node, other, amount, 1, 1, line]
}

// The events of one line in a lap. A hand-over is the send, and the deliveries of its message and of the two acknowledgments.
fn line_events(line: u32) -> [[u32; 8]; 9] {
    let deliver = event(Kind::Deliver, line, 0, 0);
    [
        event(Kind::Send, line, 4, 0),
        deliver,
        deliver,
        deliver,
        event(Kind::Write, line, 0, 0),
        event(Kind::Send, line, 0, 4),
        deliver,
        deliver,
        deliver,
    ]
}

fn lap() -> [u32; 1152] {
    let mut words = [0; 1152];
    let (events, _) = words.as_chunks_mut::<8>();
    for (line, part) in (0..16).zip(events.chunks_exact_mut(9)) {
        part.copy_from_slice(&line_events(line));
    }
    words
}

// The laps, one after another.
fn run(laps: usize, words: &[u32], answers: &mut [u32]) {
    let mut state = model::start(4, 16, 5).state;
    for _ in 0..laps {
        state = model::batch(state, words, answers).state;
    }
}

fn main(rt: HostRuntime) {
    let mut buf = [0u8; 4096];
    let laps = rt.stdin().read(&mut buf).unwrap_or(0);
    let words = lap();
    let mut answers = [7u32; 432];
    let events = usize::from(buf[0]).min(144);
    run(laps, &words[0..events * 8], &mut answers);
    // the number of the 144th answer, or 7 where a lap has fewer
    let number = answers[429];
    let _ = println!(rt; "{number}");
}
