// The order found in arrays, as the marking's writer takes it: transactions and outcomes by place, and places by transaction.
ghost use Rattle.std.specs.Prelude.{◌≡◌, ◌/◌, ◌≤◌, eqb, length, position};
ghost use Rattle.lists.specs.Filled.{Filled};
ghost use Rattle.opacity.specs.Marking.{place_of};
ghost use Rattle.places.specs.Places.{decode};
ghost use Rattle.found.specs.Arrays.{Arrayed};

// The transaction at each place, and its outcome, 0 aborted or 1 committed.
#[derive(Clone, Copy)]
pub struct Placed {
    pub order: [u16; 64],
    pub outcomes: [u8; 64],
}

// The places of an order, from their codes.
pub fn placed_by(codes: &[u8]) -> Placed
    requires { length codes.now ≤ 10 }
    ensures { Arrayed codes.now (length codes.now) result.order result.outcomes }
{
    let mut order = [0u16; 64];
    let mut outcomes = [0u8; 64];
    for (k, code) in codes.iter().enumerate() {
        order[k] = u16::from(*code / 2);
        outcomes[k] = *code % 2;
    }
    Placed { order, outcomes }
}

// The place of t in an order, if it has one.
fn position_of(codes: &[u8], t: usize) -> Option<usize>
    ensures { result ≡ position (λ c. eqb (c / 2) t) codes.now }
{
    codes.iter().position(|code| usize::from(*code / 2) == t)
}

// The place of t in an order, or the number of its places.
fn place_of(codes: &[u8], t: usize) -> usize
    ensures { (result ≡ place_of t (decode codes.now)) × (result ≤ length codes.now) }
{
    position_of(codes, t).unwrap_or(codes.len())
}

// The place of each of as many transactions as an order has places.
pub fn readers_by(codes: &[u8]) -> [u16; 64]
    requires { length codes.now ≤ 10 }
    ensures { Filled 64 0 (λ t. place_of t (decode codes.now)) (length codes.now) result }
{
    let mut places = [0u16; 64];
    for (t, place) in places[..codes.len()].iter_mut().enumerate() {
        *place = place_of(codes, t) as u16;
    }
    places
}
