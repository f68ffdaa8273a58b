// A byte as a number of 64 bits. It stays beside the `u64::from` of std, since docs/STATEMENTS.md promises it.
ghost use Rattle.std.specs.Prelude.{◌≡◌};

pub fn wide(byte: u8) -> u64
    ensures { result ≡ byte }
{
    u64::from(byte)
}
