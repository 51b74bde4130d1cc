// Numbers that may be none: 0 stands for none, and every other for the one below it.
ghost use Rattle.std.specs.Prelude.{◌≡◌, ◌+◌};

// A value as a number that may be none.
pub fn stored(x: u32) -> u64
    ensures { result ≡ x + 1 }
{
    u64::from(x) + 1
}
