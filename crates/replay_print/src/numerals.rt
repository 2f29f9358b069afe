// Numbers in decimal, and bytes in hex.
ghost use Rattle.std.specs.Prelude.{◌≡◌, ◌<◌, replicate};
ghost use Rattle.replay_print.specs.Out.{Prints};
ghost use Rattle.replay_print.specs.Text.{padded_of, hex_digit, hex_of, hexes_of};

use crate::out::Out;
use std::io::Write;

// A hex digit, in capitals. Stays a choice of two: the library's `from_digit` gives a small letter, and a `char`.
fn digit(n: u8) -> u8
    requires { n < 16 }
    ensures { result ≡ hex_digit n }
{
    if n < 10 { b'0' + n } else { b'A' + (n - 10) }
}

impl<W: Write> Out<W> {
    // The same byte so many times.
    #[tactic(auto, using(crate::proofs::Laws::one_more), unfolding(crate::specs::Out::laid_of))]
    fn repeated(&mut self, b: u8, n: usize)
        ensures { Prints self.old self.new (replicate n b) }
    {
        for _ in 0..n {
            self.put(b);
        }
    }

    // A number in decimal, with zeros before it up to a width.
    pub fn decimal(&mut self, n: u64, width: usize)
        ensures { Prints self.old self.new (padded_of width n) }
    {
        let mut digits = [0u8; 20];
        let k = io::decimal(n, &mut digits);
        self.repeated(b'0', width.saturating_sub(k));
        self.text(&digits[..k]);
    }

    // A byte as two hex digits.
    #[tactic(auto, unfolding(crate::specs::Text::hex_of, crate::specs::Out::laid_of))]
    pub fn byte(&mut self, b: u8)
        ensures { Prints self.old self.new (hex_of b) }
    {
        self.put(digit(b / 16));
        self.put(digit(b % 16));
    }

    // Several bytes in hex, with nothing between them.
    #[tactic(auto, using(crate::proofs::Laws::hexes_next), unfolding(crate::specs::Text::hexes_of, crate::specs::Out::laid_of))]
    pub fn bytes(&mut self, s: &[u8])
        ensures { Prints self.old self.new (hexes_of s.now) }
    {
        for b in s {
            self.byte(*b);
        }
    }
}
