// A flag as a byte: what is lent is read by `is_set`, and written as `byte_of` says.
ghost use Rattle.std.specs.Prelude.{◌≡◌};
ghost use Rattle.meaning.specs.Flags.{is_set, byte_of};

pub fn is_set(b: u8) -> bool
    ensures { result ≡ is_set b }
{
    b != 0
}

pub fn byte_of(b: bool) -> u8
    ensures { result ≡ byte_of b }
{
    u8::from(b)
}
