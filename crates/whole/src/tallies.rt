// A state is well formed: one pass over its serials, one over its cells, one over its messages.
// All sixteen lines' sums are kept in one scratch table (request T-07 replaces it by one sum at a time).
ghost use Rattle.std.specs.Prelude.{◌≡◌, ℕ, ◌≤◌, ◌<◌, length, false, get_or, leb, MatchOption};
ghost use Rattle.std.specs.List.{list_all};
ghost use Rattle.rules.specs.Tools.{all_to};
ghost use Rattle.rules.specs.States.{bears as bearsOf};
ghost use Rattle.rules.specs.WellFormed.{well_formed, counted, borne, serial_fine_at, line_fine, slot_fine};
ghost use Rattle.whole.specs.Tallies.{nine_fine, parts_fine, Added, LineTallied, CellsTallied, PoolTallied, Tallied};

use checks::{cell_fine, message_fine, serial_fine, sizes_fine};
use rules::cells::Cell;
use rules::messages::Message;
use rules::numbers::{Count, Serial};
use rules::states::{Sizes, State};

#[tactic(auto, using(rules::proofs::Facts::Loops::all_none, rules::proofs::Facts::Loops::all_more), unfolding(rules::specs::States::serial_at))]
fn serials_fine(s: &State) -> bool
    ensures { result ≡ all_to 16 (serial_fine_at s.now) }
{
    let mut fine = true;
    for (line, serial) in s.serials.iter().enumerate() {
        fine &= serial_fine(s.sizes, line as u8, *serial);
    }
    fine
}

// The sum of a line's nine cells, if all are fine.
fn check_line(z: Sizes, line: u8, nine: &[Cell]) -> Option<u32>
    requires { length nine.now ≡ 9 }
    ensures { MatchOption result (nine_fine z line nine.now ≡ false) (LineTallied z line nine.now) }
{
    let mut tokens = 0;
    for (node, cell) in nine.iter().enumerate() {
        if !cell_fine(z, line, node as u8, *cell) {
            return None;
        }
        tokens += cell.tokens.0 as u32;
    }
    Some(tokens)
}

// The sum of each line's cells, if all are fine.
fn check_cells(s: &State) -> Option<[u32; 16]>
    ensures { MatchOption result (all_to 16 (line_fine s.now) ≡ false) (CellsTallied s.now) }
{
    let mut sums = [0; 16];
    // by number: of sums that are lent out one by one a proof knows the length alone
    for line in 0..16 {
        let k = line * 9;
        sums[line] = check_line(s.sizes, line as u8, &s.cells[k..k + 9])?;
    }
    Some(sums)
}

// The slot holds a message of the line that bears the serial.
fn bears(line: u8, q: Serial, m: Message) -> bool
    ensures { result ≡ bearsOf line q.0 m }
{
    !m.kind.is_free() & (m.line == line) & (m.serial == q)
}

// The message's tokens, if it is one of the line that bears the serial.
#[tactic(auto, unfolding(rules::specs::WellFormed::counted))]
fn counted_tokens(line: u8, q: Serial, m: Message) -> u32
    ensures { (result ≡ counted line q.0 borne m) × (result ≤ 255) }
{
    if bears(line, q, m) {
        m.tokens.0 as u32
    } else {
        0
    }
}

// Adds a message's tokens to its line in the table.
fn add_message(sums: &mut [u32; 16], serials: &[Serial; 16], m: Message)
    requires { (k : ℕ) → k < 16 → get_or sums.old k 0 ≤ 65535 }
    ensures { Added sums.old serials.now m sums.new }
{
    let at = m.line as usize;
    if at < 16 {
        sums[at] += counted_tokens(m.line, serials[at], m);
    }
}

// The table with the tokens of all messages added, if all are fine.
fn check_pool(s: &State, before: &[u32; 16]) -> Option<[u32; 16]>
    requires { (k : ℕ) → k < 16 → get_or before.now k 0 ≤ 2295 }
    ensures { MatchOption result (all_to 64 (slot_fine s.now) ≡ false) (PoolTallied s.now before.now) }
{
    let mut sums = *before;
    for m in &s.pool {
        if !message_fine(s.sizes, *m) {
            return None;
        }
        add_message(&mut sums, &s.serials, *m);
    }
    Some(sums)
}

// No sum of the table is above n.
fn sums_fine(n: Count, sums: &[u32; 16]) -> bool
    ensures { result ≡ list_all (λ sum. leb sum n.0) sums.now }
{
    sums.iter().all(|sum| *sum <= n.0 as u32)
}

// The tokens of each line, if all cells and all messages are fine.
#[tactic(auto, using(crate::proofs::Facts::Checked::tallied))]
fn tally(s: &State) -> Option<[u32; 16]>
    ensures { MatchOption result (parts_fine s.now ≡ false) (Tallied s.now) }
{
    let cells = check_cells(s)?;
    check_pool(s, &cells)
}

// Whether a state is well formed, for every state that the types can hold.
#[tactic(auto, using(crate::proofs::Facts::Checked::some_checked, crate::proofs::Facts::Checked::none_checked))]
pub fn well_formed(s: State) -> bool
    ensures { result ≡ well_formed s }
{
    let z = s.sizes;
    let sizes = sizes_fine(z.caches as u32, z.lines as u32, z.total.0 as u32);
    let serials = serials_fine(&s);
    match tally(&s) {
        Some(sums) => sizes & serials & sums_fine(z.total, &sums),
        None => false,
    }
}
