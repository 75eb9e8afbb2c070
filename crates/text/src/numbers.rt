// One number of a line.
ghost use Rattle.std.specs.Prelude.{◌+◌, ◌<◌, ◌≤◌, ◌≡◌, length, IfSome, MatchOption};
ghost use Rattle.text.specs.Parts.{Runs, Unreadable, Found, Short, one_digit};

// What digits spell, the place past them, and the byte there; at the end of input a line feed, since that ends a line too.
#[derive(Clone, Copy)]
pub(crate) struct Spelled<V> {
    pub value: V,
    pub end: usize,
    pub after: u8,
}

// The digits from a place on. It stops once the value has ten digits, so that the value cannot wrap.
fn digits(s: &[u8], from: usize) -> Spelled<u64>
    ensures { Runs s.now from result }
{
    let mut value: u64 = 0;
    let Some(rest) = s.get(from..) else {
        return Spelled {
            value,
            end: from,
            after: 10,
        };
    };
    for (k, &b) in rest.iter().enumerate() {
        if !b.is_ascii_digit() || 1000000000 <= value {
            return Spelled {
                value,
                end: from + k,
                after: b,
            };
        }
        value = value * 10 + (b - 48) as u64;
    }
    Spelled {
        value,
        end: s.len(),
        after: 10,
    }
}

// The number of the field at a place, if it is readable.
pub(crate) fn field(s: &[u8], from: usize) -> Option<Spelled<u32>>
    ensures { MatchOption result (Unreadable s.now from) (Found s.now from) }
{
    let d = digits(s, from);
    if d.end == from {
        return None;
    }
    if 4294967295 < d.value {
        return None;
    }
    // a leading zero
    if d.end - from > 1 && s[from] == 48 {
        return None;
    }
    Some(Spelled {
        value: d.value as u32,
        end: d.end,
        after: d.after,
    })
}

// The number of a field of one digit that a tab ends: most fields are such, and need no other test.
pub(crate) fn short(s: &[u8], from: usize) -> Option<u32>
    requires { from ≤ length s.now }
    ensures { IfSome result (λ v. Short s.now from v) }
{
    match &s[from..] {
        [b, 9, ..] if b.is_ascii_digit() => Some((b - 48) as u32),
        _ => None,
    }
}

// Whether a digit stands at a place, and after it the byte that ends its field. No branch, so that many are tested at once.
pub(crate) fn one_digit(s: &[u8], from: usize, end: u8) -> bool
    requires { from + 1 < length s.now }
    ensures { result ≡ one_digit s.now from end }
{
    (s[from + 1] == end) & s[from].is_ascii_digit()
}
