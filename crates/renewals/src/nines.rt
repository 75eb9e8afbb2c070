// The recreation of a line's tokens, over the line's nine cells.
ghost use Rattle.std.specs.Prelude.{◌≡◌};
ghost use Rattle.rules.specs.Kinds.{number_in};
ghost use Rattle.rules.specs.Refusals.{next, copyless as copylessOf, backupless as backuplessOf};
ghost use Rattle.rules.specs.Effects.{word_for, after_recreation};
ghost use Rattle.renewals.specs.Nines.{nth, copy_refusal, renewal_refusal};

use rules::cells::Cell;
use rules::numbers::{Count, Serial};
use rules::refusals::Refusal;

// One more, and 0 after 3.
#[tactic(auto, unfolding(rules::specs::Refusals::next))]
pub fn next_serial(q: Serial) -> Serial
    ensures { result.0 ≡ next q.0 }
{
    if q.0 < 3 { Serial(q.0 + 1) } else { Serial(0) }
}

// No owner and no valid cell.
fn copyless(nine: &[Cell; 9]) -> bool
    ensures { result ≡ copylessOf (nth nine.now) }
{
    !nine.iter().any(|c| c.owner | c.valid)
}

// No backup at any node.
fn backupless(nine: &[Cell; 9]) -> bool
    ensures { result ≡ backuplessOf (nth nine.now) }
{
    !nine.iter().any(|c| c.backup)
}

// The word that a recreation takes for the node whose cell is x; of the backups only its own.
pub fn word_for(x: Cell, nine: [Cell; 9]) -> u32
    ensures { result ≡ word_for x (nth nine) }
{
    if let Some(owner) = nine.iter().find(|c| c.owner) {
        return owner.word;
    }
    if let Some(valid) = nine.iter().find(|c| c.valid) {
        return valid.word;
    }
    if x.backup { x.saved } else { 0 }
}

// A cell after the recreation: the chosen one has all n tokens and the word.
#[tactic(auto, unfolding(rules::specs::Effects::after_recreation))]
pub fn renewed(chosen: bool, n: Count, word: u32, x: Cell) -> Cell
    ensures { result ≡ after_recreation n.0 word chosen x }
{
    if chosen {
        let y = x.recreate(n, word);
        y.settle(n)
    } else {
        x.clear()
    }
}

// Where the line has no owner and no valid cell there is a backup, and the node whose cell is x has one.
#[tactic(auto, unfolding(crate::specs::Nines::copy_refusal, numbers::specs::Rows::from, rules::specs::Refusals::table, rules::specs::Refusals::given))]
fn copy_refusal(x: Cell, nine: &[Cell; 9]) -> Result<(), Refusal>
    ensures { number_in result ≡ copy_refusal x nine.now }
{
    if !copyless(nine) {
        return Ok(());
    }
    if backupless(nine) {
        return Err(Refusal::NothingLeft);
    }
    if x.backup {
        Ok(())
    } else {
        Err(Refusal::BackupElsewhere)
    }
}

// Refused where a message of the line bears the next serial, or where no data are left for the node whose cell is x.
#[tactic(auto, unfolding(crate::specs::Nines::renewal_refusal, crate::specs::Nines::copy_refusal, numbers::specs::Rows::from, rules::specs::Refusals::table, rules::specs::Refusals::given))]
pub fn renewal_refusal(x: Cell, borne: bool, nine: [Cell; 9]) -> Result<(), Refusal>
    ensures { number_in result ≡ renewal_refusal x borne nine }
{
    if borne {
        return Err(Refusal::NextSerialBorne);
    }
    copy_refusal(x, &nine)
}
