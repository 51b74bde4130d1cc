// Sets of registers, one bit each in a u32.
ghost use Rattle.std.specs.Prelude.{◌≡◌, ◌^◌, ◌<◌, eqb};
ghost use Rattle.std.specs.Int.Bits.{bit_or};
ghost use Rattle.lists.specs.Bits.{bit_at};

// Is r in the set?
pub fn has_register(set: u32, r: usize) -> bool
    requires { r < 32 }
    ensures { result ≡ eqb (bit_at r set) 1 }
{
    (set >> r) % 2 == 1
}

// The set with r in it.
pub fn with_register(set: u32, r: usize) -> u32
    requires { r < 32 }
    ensures { result ≡ bit_or set (2 ^ r) }
{
    set | 1u32 << r
}
