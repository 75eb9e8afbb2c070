// The sizes of a state, and the serial of a line.
ghost use Rattle.std.specs.Prelude.{◌≡◌};
ghost use Rattle.rules.specs.Fresh.{sizes as sizesOf};
ghost use Rattle.rules.specs.WellFormed.{sizes_fine, serial_fine};

use rules::numbers::Serial;
use rules::states::Sizes;

// The sizes are in range; numbers as a start gets them, since these may not fit the bytes of `Sizes`.
#[tactic(auto, unfolding(rules::specs::WellFormed::sizes_fine, rules::specs::Tools::every))]
pub fn sizes_fine(caches: u32, lines: u32, tokens: u32) -> bool
    ensures { result ≡ sizes_fine (sizesOf caches lines tokens) }
{
    (0 < caches) & (caches <= 8) & (0 < lines) & (lines <= 16) & (0 < tokens) & (tokens <= 64)
}

// 0 to 3, and 0 beyond the lines.
#[tactic(auto, unfolding(rules::specs::WellFormed::serial_fine))]
pub fn serial_fine(z: Sizes, line: u8, q: Serial) -> bool
    ensures { result ≡ serial_fine z line q.0 }
{
    if line < z.lines { q.0 < 4 } else { q.0 == 0 }
}
