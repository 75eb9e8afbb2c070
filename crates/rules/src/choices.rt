// One of two numbers, by a test; both are worked out.
ghost use Rattle.std.specs.Prelude.{cond as pick, ◌≡◌};

// `a` where the test passes, else `b`.
pub fn either(test: bool, a: u32, b: u32) -> u32
    ensures { result ≡ pick test a b }
{
    if test { a } else { b }
}
