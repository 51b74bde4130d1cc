// The state of the search, and the places that it holds.
ghost use Rattle.std.specs.Prelude.{◌≡◌, ◌*◌, ◌/◌, ◌%◌, ◌^◌, ◌≤◌, ◌<◌, take};
ghost use Rattle.std.specs.Iterator.{YieldsLast, item_count};
ghost use Rattle.places.specs.Places.{codes_of};
ghost use Rattle.places.specs.State.{Placeable, Extends, Ordered, PlaceOf};

use crate::sets;

// A place is one of so many codes, in so many bits.
pub const CODES: u64 = 32;

const BITS: usize = 5;

// The state of the search: the transactions not yet placed, one bit each; how many places are filled; and what fills them, five bits
// a place behind a leading 1, the last place lowest, each its transaction times 2 plus its outcome. It holds nothing of the registers.
// Kept as one number: `codes_of` of the specs reads it so, and the answer of the search is such a number.
#[derive(Clone, Copy)]
pub struct Search {
    pub unplaced: u64,
    pub filled: usize,
    pub placed: u64,
}

impl Search {
    // The state with t placed next.
    pub fn place(self, t: usize, outcome: u64) -> Search
        requires placeable { Placeable self t }
        requires outcome_bound { outcome < 2 }
        ensures { Extends self t outcome result }
    {
        Search {
            unplaced: sets::without(self.unplaced, t),
            filled: self.filled + 1,
            placed: self.placed * CODES + (t as u64 * 2 + outcome),
        }
    }
}

// The code of the place that is so many before the last.
pub fn code_at(placed: u64, back: usize) -> usize
    requires { back < 10 }
    ensures { result ≡ placed / 2 ^ (back * 5) % 32 }
{
    ((placed >> (back * BITS)) % CODES) as usize
}

// The codes of so many places, from the last one back.
#[derive(Clone, Copy)]
pub struct Back {
    pub left: usize,
    pub rest: u64,
}

impl Iterator for Back {
    type Item = usize;

    ghost next_gives = { YieldsLast (λ s. codes_of s.left s.rest) };

    ghost remaining = { item_count (λ s. codes_of s.left s.rest) };

    fn next(&mut self) -> Option<usize> {
        if self.left == 0 {
            return None;
        }
        let code = (self.rest % CODES) as usize;
        self.left -= 1;
        self.rest /= CODES;
        Some(code)
    }
}

// A place of an order: what stands before it, as a state has it, and its outcome.
#[derive(Clone, Copy)]
pub struct Spot {
    pub filled: usize,
    pub placed: u64,
    pub committed: bool,
}

// The place of t in an order of so many places, looked for from the last place back. Kept as a `while`: the place is always found, and
// after a `for` something would have to be answered for one that is not.
pub fn place_of(order: u64, count: usize, t: usize) -> Spot
    requires ordered { Ordered count order }
    requires t_lt_count { t < count }
    ensures { PlaceOf count order t result }
{
    let mut left = count;
    let mut rest = order;
    while rest % CODES / 2 != t as u64 {
        left -= 1;
        rest /= CODES;
    }
    Spot {
        filled: left - 1,
        placed: rest / CODES,
        committed: rest % CODES % 2 == 1,
    }
}

// The codes of a completion of so many places, from the first place on.
pub fn codes_of(order: u64, count: usize) -> [u8; 10]
    requires { count ≤ 10 }
    ensures { take count result ≡ codes_of count order }
{
    let mut codes = [0u8; 10];
    for i in 0..count {
        codes[i] = code_at(order, count - 1 - i) as u8;
    }
    codes
}
