// Where the parts of a state stand. Each place is one of its array whatever the numbers are, and no Option: a cell is loaded before
// the event is looked at, and a refusal tells of numbers that are out of range.
ghost use Rattle.std.specs.Prelude.{◌≡◌, ◌<◌};
ghost use Rattle.numbers.specs.Places.{row_of, place_of};

// The place of a line's serial.
#[tactic(auto, unfolding(crate::specs::Places::row_of))]
pub fn row(line: u32) -> usize
    ensures { (result < 16) × (result ≡ row_of line) }
{
    if line < 16 { line as usize } else { 0 }
}

// The place of a node's cell of a line.
#[tactic(auto, unfolding(crate::specs::Places::place_of))]
pub fn place(line: u32, node: u32) -> usize
    ensures { (result < 144) × (result ≡ place_of line node) }
{
    if line < 16 && node < 9 {
        line as usize * 9 + node as usize
    } else {
        0
    }
}
