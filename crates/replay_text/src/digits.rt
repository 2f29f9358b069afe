// Digits, in decimal or in hex.
ghost use Rattle.std.specs.Prelude.{◌≡◌};
ghost use Rattle.replay_text.specs.Digits.{digit_of, with_digit, digits_at};

use crate::rest;

// Digits as far as they go: how many, what they come to, and the place past them.
#[derive(Clone, Copy)]
pub struct Digits {
    pub count: usize,
    pub value: u64,
    pub at: usize,
}

// The value of a digit, of either case.
#[tactic(auto, using(crate::proofs::Hexes::hex_digit))]
pub fn digit(b: u8) -> Option<u8>
    ensures { result ≡ digit_of b }
{
    char::from(b).to_digit(16).map(|x| x as u8)
}

// One digit more. A value that passes what any line may hold stays there.
#[tactic(auto, unfolding(crate::specs::Digits::with_digit))]
fn with_digit(value: u64, base: u8, x: u8) -> u64
    ensures { result ≡ with_digit base value x }
{
    if value < 0x1_0000_0000_0000 {
        value * u64::from(base) + u64::from(x)
    } else {
        value
    }
}

// The digits of a base from a place on.
#[tactic(auto, unfolding(crate::specs::Digits::digits_at))]
pub fn read_digits(text: &[u8], from: usize, base: u8) -> Digits
    ensures { result ≡ digits_at base text.now from }
{
    // The count is part of what is answered, and goes up with the digits alone.
    let mut count = 0;
    let mut value = 0;
    for b in rest(text, from) {
        match digit(*b) {
            Some(x) if x < base => value = with_digit(value, base, x),
            _ => break,
        }
        count += 1;
    }
    Digits {
        count,
        value,
        at: from + count,
    }
}
