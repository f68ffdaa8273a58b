// Whole numbers: the same number in a wider type, and the smaller of two. They stay beside the `u64::from` and `min` of
// std, since docs/STATEMENTS.md promises them.
ghost use Rattle.std.specs.Prelude.{◌≡◌, min};

pub fn wide(n: u32) -> u64
    ensures { result ≡ n }
{
    u64::from(n)
}

pub fn least(a: usize, b: usize) -> usize
    ensures { result ≡ min a b }
{
    a.min(b)
}
