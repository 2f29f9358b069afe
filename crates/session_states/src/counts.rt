// Counts that can never overflow: each goes back, or stays, where no test of the paper can tell (specs/Counts.antt).
ghost use Rattle.std.specs.Prelude.{◌≡◌};
ghost use Rattle.session_states.specs.Counts.{next_count, next_each_five, next_ecp, next_up_to};

// One more; from `top` on it is `back`.
fn next_count(top: u16, back: u16, n: u16) -> u16
    ensures { result ≡ next_count top back n }
{
    if top <= n { back } else { n + 1 }
}

// After 5 comes 1: "each 5" and "has one gone out" are asked of it.
pub fn next_each_five(n: u16) -> u16
    ensures { result ≡ next_each_five n }
{
    next_count(5, 1, n)
}

// After 15 comes 6: EVM at 0, ECP at 5, 15, 25 and so on, and "has an ECP gone out" are asked of it.
pub fn next_ecp(n: u16) -> u16
    ensures { result ≡ next_ecp n }
{
    next_count(15, 6, n)
}

// It stays at the limit: whether the limit is reached is asked of it.
pub fn next_up_to(limit: u16, n: u16) -> u16
    ensures { result ≡ next_up_to limit n }
{
    next_count(limit, limit, n)
}
