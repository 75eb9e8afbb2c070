// The ways in which a cell changes (document 01, "What each event does"), each a method that returns the cell.
ghost use Rattle.std.specs.Prelude.{◌≡◌};
ghost use Rattle.rules.specs.Cells.{able_to_read, able_to_write, served, give as given, take_fitting, fill as filled, block as blocked_now, back_up, unbacked, unblocked, cleared, recreated, written, with_want, want_after, settled};

use crate::cells::{Cell, Want};
use crate::choices::either;
use crate::empties::empty_cell;
use crate::numbers::Count;

impl Cell {
    // The count falls by the amount, and not below 0; with no token left, valid and the data go.
    pub fn give(mut self, amount: Count) -> Cell
        ensures { result ≡ given amount.0 self }
    {
        let some = amount.0 < self.tokens.0;
        self.word = either(some, self.word, 0);
        self.valid = some & self.valid;
        self.tokens = Count(self.tokens.0.saturating_sub(amount.0));
        self
    }

    // The count rises by the amount; where the sum does not fit a byte, the cell as it came.
    #[tactic(auto, unfolding(crate::specs::Cells::take_fitting))]
    pub fn take(mut self, amount: Count) -> Cell
        ensures { result ≡ take_fitting amount.0 self }
    {
        if let Some(sum) = self.tokens.0.checked_add(amount.0) {
            self.tokens = Count(sum);
        }
        self
    }

    // Valid, with the word.
    pub fn fill(mut self, came: u32) -> Cell
        ensures { result ≡ filled came self }
    {
        self.valid = true;
        self.word = came;
        self
    }

    // Owner and blocked.
    pub fn block(mut self) -> Cell
        ensures { result ≡ blocked_now self }
    {
        self.owner = true;
        self.blocked = true;
        self
    }

    pub fn unblock(mut self) -> Cell
        ensures { result ≡ unblocked self }
    {
        self.blocked = false;
        self
    }

    // Owner no longer, with a backup of the data.
    pub fn back_up(mut self) -> Cell
        ensures { result ≡ back_up self }
    {
        self.owner = false;
        self.backup = true;
        self.saved = self.word;
        self
    }

    // The backup goes, with its word.
    pub fn drop_backup(mut self) -> Cell
        ensures { result ≡ unbacked self }
    {
        self.backup = false;
        self.saved = 0;
        self
    }

    pub fn write(mut self, word: u32) -> Cell
        ensures { result ≡ written word self }
    {
        self.word = word;
        self
    }

    // Tokens, marks and words go; the want stays.
    pub fn clear(self) -> Cell
        ensures { result ≡ cleared self }
    {
        Cell {
            want: self.want,
            ..empty_cell()
        }
    }

    // All n tokens, owner and valid with the word, not blocked; the want stays.
    pub fn recreate(self, n: Count, word: u32) -> Cell
        ensures { result ≡ recreated n.0 word self }
    {
        Cell {
            tokens: n,
            valid: true,
            owner: true,
            word,
            ..self.clear()
        }
    }

    // With this want.
    pub fn wish(mut self, want: Want) -> Cell
        ensures { result ≡ with_want want self }
    {
        self.want = want;
        self
    }

    pub fn able_to_read(self) -> bool
        ensures { result ≡ able_to_read self }
    {
        (0 < self.tokens.0) & self.valid
    }

    pub fn able_to_write(self, n: Count) -> bool
        ensures { result ≡ able_to_write n.0 self }
    {
        (self.tokens == n) & self.valid
    }

    // The cell can do what it wants.
    fn is_served(self, n: Count) -> bool
        ensures { result ≡ served n.0 self self.want }
    {
        match self.want {
            Want::Nothing => false,
            Want::Read => self.able_to_read(),
            Want::Write => self.able_to_write(n),
        }
    }

    // The want ends if the cell can do what it wants.
    fn want_left(self, n: Count) -> Want
        ensures { result ≡ want_after n.0 self }
    {
        if self.is_served(n) {
            Want::Nothing
        } else {
            self.want
        }
    }

    pub fn settle(self, n: Count) -> Cell
        ensures { result ≡ settled n.0 self }
    {
        self.wish(self.want_left(n))
    }
}
