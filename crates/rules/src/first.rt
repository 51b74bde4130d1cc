// The search that every rule ends in.
ghost use Rattle.std.specs.Prelude.{◌≡◌, ℕ, ◌<◌, Bool};
ghost use Rattle.rules.specs.Orders.{broken};

// The first of the numbers below n that fails a test.
pub fn first_failing<F: Fn(usize) -> bool>(n: usize, holds: F) -> Option<usize>
    requires { (i : ℕ) → i < n → F.pre holds i }
    ensures { (p : ℕ → Bool) → ((i : ℕ) → (b : Bool) → i < n → F.post holds i b → b ≡ p i)
        → result ≡ broken p n }
{
    for i in 0..n {
        if !holds(i) {
            return Some(i);
        }
    }
    None
}
