// A start: the fresh state.
ghost use Rattle.std.specs.Prelude.{◌≡◌, ◌≤◌};
ghost use Rattle.rules.specs.Fresh.{memory_cell, fresh_cells, fresh as fresh_of, start_of};

use checks::sizes_fine;
use rules::cells::Cell;
use rules::empties::{empty_cell, free_message};
use rules::events::{Answer, Stepped};
use rules::numbers::{Count, Serial};
use rules::refusals::Refusal;
use rules::states::{Sizes, State};

// The memory's cell: all tokens, owner and valid.
fn memory_cell(n: Count) -> Cell
    ensures { result ≡ memory_cell n.0 }
{
    empty_cell().recreate(n, 0)
}

// 144 times the empty cell, then the memory's cell of each line.
#[tactic(auto, using(crate::proofs::Facts::Fresh::fresh_none, crate::proofs::Facts::Fresh::fresh_more))]
fn fresh_cells(z: Sizes) -> [Cell; 144]
    requires { (z.caches ≤ 8) × (z.lines ≤ 16) }
    ensures { result ≡ fresh_cells z.lines z.caches z.total.0 }
{
    let memory = memory_cell(z.total);
    let mut cells = [empty_cell(); 144];
    // by number: of cells that are lent out by nines a proof knows the length alone
    for line in 0..z.lines {
        cells[line as usize * 9 + z.caches as usize] = memory;
    }
    cells
}

#[tactic(auto, unfolding(rules::specs::Fresh::fresh))]
fn fresh(z: Sizes) -> State
    requires { (z.caches ≤ 8) × (z.lines ≤ 16) }
    ensures { result ≡ fresh_of z.caches z.lines z.total.0 }
{
    State {
        sizes: z,
        serials: [Serial(0); 16],
        cells: fresh_cells(z),
        pool: [free_message(); 64],
    }
}

// The fresh state of the sizes; refused, with the state that is all zero, where one is out of range.
#[tactic(auto, using(rules::proofs::Keeps::Well::sizes_ok), unfolding(rules::specs::Fresh::start_of))]
pub fn start(caches: u32, lines: u32, tokens: u32) -> Stepped
    ensures { result ≡ start_of caches lines tokens }
{
    if sizes_fine(caches, lines, tokens) {
        let z = Sizes {
            caches: caches as u8,
            lines: lines as u8,
            total: Count(tokens as u8),
        };
        Stepped {
            state: fresh(z),
            answer: Answer {
                number: 0,
                word: 0,
                slot: 64,
            },
        }
    } else {
        let none = Sizes {
            caches: 0,
            lines: 0,
            total: Count(0),
        };
        Stepped {
            state: fresh(none),
            answer: Answer::refused(Refusal::WrongSize),
        }
    }
}
