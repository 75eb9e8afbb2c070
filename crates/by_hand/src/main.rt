// States made by hand, some of which no start reaches, each beside a neighbour: what a step answers, one line for each. Then
// batches of reads at cache 0 with lists of several lengths: number and count, and the answer words, which held 77.
#![tactic(auto)]

use rules::cells::{Cell, Want};
use rules::empties::empty_cell;
use rules::events::{Answer, Event};
use rules::kinds::Kind;
use rules::numbers::Count;
use rules::states::State;

fn cell(tokens: u8, mark: bool, backup: bool, want: Want, word: u32) -> Cell {
    Cell {
        tokens: Count(tokens),
        valid: mark,
        owner: mark,
        blocked: false,
        backup,
        want,
        word: if mark { word } else { 0 },
        saved: if backup { word } else { 0 },
    }
}

fn event(kind: Kind, node: u32) -> Event {
    Event {
        kind: kind as u32,
        line: 0,
        node,
        other: 0,
        amount: 0,
        owner: 0,
        full: 0,
        word: 0,
    }
}

// Number, word and slot with spaces between, and a line feed. No `Display` of `Answer`: only this program prints one so.
fn show(rt: &impl Print, a: Answer) {
    let _ = println!(rt; "{} {} {}", a.number, a.word, a.slot);
}

// Two caches and one line of three tokens, with these three cells.
fn with_three(first: Cell, second: Cell, memory: Cell) -> State {
    let mut s = model::start(2, 1, 3).state;
    s.cells[0] = first;
    s.cells[1] = second;
    s.cells[2] = memory;
    s
}

// The same with nothing at cache 1.
fn with_two(first: Cell, memory: Cell) -> State {
    with_three(first, empty_cell(), memory)
}

fn said(rt: &impl Print, s: State, e: Event) {
    show(rt, model::step(s, e).answer);
}

// A step, and then a read at the same node.
fn then_read(rt: &impl Print, s: State, e: Event) {
    let r = model::step(s, e);
    show(rt, r.answer);
    said(rt, r.state, event(Kind::Read, e.node));
}

// A cache that wants to read and has only a backup, of this word.
fn backed(word: u32) -> Cell {
    cell(0, false, true, Want::Read, word)
}

// A batch of reads, and what it leaves: its number and count, and the answer words by threes.
fn batched(rt: &impl Print, s: State, events: &[u32], answers: &mut [u32]) {
    let b = model::batch(s, events, answers);
    let _ = println!(rt; "{} {}", b.number, b.count);
    let (threes, _) = answers.as_chunks::<3>();
    for [number, word, slot] in threes {
        let _ = println!(rt; "{number} {word} {slot}");
    }
}

// Two events and nine answer words: the last three stay.
fn two_events(rt: &impl Print, s: State) {
    batched(rt, s, &[0u32; 16], &mut [77u32; 9]);
}

fn steps(rt: &impl Print) {
    let none = empty_cell();
    let waiting = cell(0, false, false, Want::Read, 0);
    // cache 0 holds all three tokens and the memory none: well formed, the read is done
    said(
        rt,
        with_two(cell(3, true, false, Want::Nothing, 7), none),
        event(Kind::Read, 0),
    );
    // four tokens where N is three: not well formed
    said(
        rt,
        with_two(cell(4, true, false, Want::Nothing, 7), none),
        event(Kind::Read, 0),
    );
    // three tokens in the cache and one in the memory: no cell has too many, but the line has
    said(
        rt,
        with_two(
            cell(3, true, false, Want::Nothing, 7),
            cell(1, false, false, Want::Nothing, 0),
        ),
        event(Kind::Read, 0),
    );
    // the memory has a want: not well formed
    said(
        rt,
        with_two(cell(3, true, false, Want::Nothing, 7), waiting),
        event(Kind::Read, 0),
    );
}

// Lines with no owner and no valid cell.
fn backups(rt: &impl Print) {
    let none = empty_cell();
    let waiting = cell(0, false, false, Want::Read, 0);
    let memory = cell(0, false, true, Want::Nothing, 9);
    // cache 0 wants to read and only the memory has a backup: 23; the memory's own timeout is done
    said(rt, with_two(waiting, memory), event(Kind::LostToken, 0));
    said(rt, with_two(waiting, memory), event(Kind::LostData, 2));
    // two backups, and cache 0 has neither: 23
    said(
        rt,
        with_three(waiting, backed(8), memory),
        event(Kind::LostToken, 0),
    );
    // three backups: the node that is named uses its own, and its read gives that word
    // it is made anew for each: one that is kept takes 3 KB of stack more
    then_read(
        rt,
        with_three(backed(7), backed(8), memory),
        event(Kind::LostToken, 0),
    );
    then_read(
        rt,
        with_three(backed(7), backed(8), memory),
        event(Kind::LostToken, 1),
    );
    then_read(
        rt,
        with_three(backed(7), backed(8), memory),
        event(Kind::LostData, 1),
    );
    // no owner, no valid cell and no backup on the line: 18
    said(rt, with_two(waiting, none), event(Kind::LostToken, 0));
}

fn main(rt: HostRuntime) {
    steps(&rt);
    backups(&rt);
    let none = empty_cell();
    let held = with_two(cell(3, true, false, Want::Nothing, 7), none);
    let mut three = [77u32; 3];
    let mut five = [77u32; 5];
    // nine words, which are no multiple of eight: 20
    batched(&rt, held, &[0u32; 9], &mut three);
    // two events and five answer words: 21
    batched(&rt, held, &[0u32; 16], &mut five);
    // both: 20
    batched(&rt, held, &[0u32; 17], &mut five);
    two_events(&rt, held);
    // four tokens where N is three: not well formed, so each event answers 1
    two_events(&rt, with_two(cell(4, true, false, Want::Nothing, 7), none));
}
