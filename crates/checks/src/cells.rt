// The rules of a cell.
ghost use Rattle.std.specs.Prelude.{◌≡◌};
ghost use Rattle.rules.specs.WellFormed.{cell_zero, cell_rules, cell_fine};

use rules::cells::Cell;
use rules::empties::empty_cell;
use rules::numbers::Count;
use rules::states::Sizes;

#[tactic(auto, unfolding(rules::specs::WellFormed::cell_zero, rules::specs::Tools::every))]
fn cell_zero(c: Cell) -> bool
    ensures { result ≡ cell_zero c }
{
    c == empty_cell()
}

#[tactic(auto, unfolding(rules::specs::WellFormed::cell_rules, rules::specs::Tools::every))]
fn cell_rules(n: Count, memory: bool, c: Cell) -> bool
    ensures { result ≡ cell_rules n.0 memory c }
{
    (c.tokens.0 <= n.0)
        & (!c.valid | (0 < c.tokens.0))
        & (!c.owner | c.valid)
        & (!c.blocked | c.owner)
        & (!!c.valid | (c.word == 0))
        & (!!c.backup | (c.saved == 0))
        & (!memory | c.want.is_nothing())
}

// A cell within the sizes keeps the rules, one beyond is zero.
#[tactic(auto, unfolding(rules::specs::WellFormed::cell_fine))]
pub fn cell_fine(z: Sizes, line: u8, node: u8, c: Cell) -> bool
    ensures { result ≡ cell_fine z line node c }
{
    let within = (line < z.lines) & (node <= z.caches);
    if within {
        cell_rules(z.total, node == z.caches, c)
    } else {
        cell_zero(c)
    }
}
