// Sets of transactions or registers, one bit each in a u64.
ghost use Rattle.std.specs.Prelude.{◌≡◌, ◌-◌, ◌^◌, ◌<◌, eqb, MatchOption};
ghost use Rattle.std.specs.Iterator.{item_count};
ghost use Rattle.std.specs.Int.Bits.{bit_or};
ghost use Rattle.std.specs.Int.Count.{ones, count_trailing_zeros};
ghost use Rattle.lists.specs.Bits.{bit_at, members};
ghost use Rattle.places.specs.Sets.{Lowest};

// The set that holds t alone.
pub fn bit(t: usize) -> u64
    requires { t < 64 }
    ensures { result ≡ 2 ^ t }
{
    1u64 << t
}

// The lowest member of a set, 64 for the empty set.
pub fn lowest(set: u64) -> usize
    ensures { result ≡ count_trailing_zeros 64 set }
{
    u64::trailing_zeros(set) as usize
}

// The number of members.
pub fn count(set: u64) -> usize
    ensures { result ≡ ones set }
{
    u64::count_ones(set) as usize
}

// Is t a member?
pub fn has(set: u64, t: usize) -> bool
    requires { t < 64 }
    ensures { result ≡ eqb (bit_at t set) 1 }
{
    (set >> t) % 2 == 1
}

// The set without its member t.
pub fn without(set: u64, t: usize) -> u64
    requires { bit_at t set ≡ 1 }
    ensures { result ≡ set - 2 ^ t }
{
    set - bit(t)
}

// The set with t in it.
pub fn with(set: u64, t: usize) -> u64
    requires { t < 64 }
    ensures { result ≡ bit_or set (2 ^ t) }
{
    set | bit(t)
}

// A walk over the members of a set, lowest first, by the set of those that are left.
#[derive(Clone, Copy)]
pub struct Walk {
    pub left: u64,
}

impl Iterator for Walk {
    type Item = usize;

    ghost next_gives = { λ s given rest. MatchOption given ((s.left ≡ 0) × (rest.left ≡ 0)) (λ t. Lowest s.left t rest.left) };

    ghost remaining = { item_count (λ s. members s.left) };

    fn next(&mut self) -> Option<usize> {
        if self.left == 0 {
            return None;
        }
        let t = lowest(self.left);
        self.left = without(self.left, t);
        Some(t)
    }
}

// The members of a set, lowest first.
pub fn members(set: u64) -> Walk
    ensures { result.left ≡ set }
{
    Walk { left: set }
}
