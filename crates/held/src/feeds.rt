// Line feeds.
ghost use Rattle.std.specs.Prelude.{◌≡◌};
ghost use Rattle.held.specs.Wholes.{whole_of};

// How many bytes the whole lines of `s` are.
pub fn whole(s: &[u8]) -> usize
    ensures { result ≡ whole_of s.now }
{
    match s.iter().rposition(|b| *b == 10) {
        Some(last) => last + 1,
        None => 0,
    }
}
