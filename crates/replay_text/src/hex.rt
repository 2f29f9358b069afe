// The bytes that stand in a line in hex.
ghost use Rattle.std.specs.Prelude.{◌≡◌};
ghost use Rattle.replay_text.specs.Hex.{bytes_in, hex_in};
ghost use Rattle.replay_text.specs.Chars.{byte_at, laid_first};
ghost use Rattle.replay_text.specs.Digits.{digit_of};

use crate::byte_at;
use crate::digits::digit;

// As many bytes as a line can hold in hex.
pub const MOST_BYTES: usize = 2048;

// Stays an array with a count beside it: what is laid is promised of the whole array, its rest too (`laid_first`), which
// a vector that shows its first so many cannot say.
pub type Bytes = [u8; MOST_BYTES];

// The value of the hex digit at a place, where there is one.
fn digit_at(text: &[u8], at: usize) -> Option<u8>
    ensures { result ≡ digit_of (byte_at text.now at) }
{
    digit(byte_at(text, at))
}

// The bytes in hex from a place on, as far as they go: how many, and the place past their digits; none where half of
// one is left over.
#[tactic(auto, using(crate::proofs::Pairs::read_none, crate::proofs::Pairs::digit_small))]
pub fn read_bytes(text: &[u8], from: usize, out: &mut Bytes) -> Option<(usize, usize)>
    ensures answer { result ≡ hex_in text.now from }
    ensures later { out.new ≡ laid_first (bytes_in text.now from) out.old }
{
    // The place moves on by the two characters of a byte, and ends at the first that is no digit.
    let mut at = from;
    for n in 0..out.len() {
        let Some(high) = digit_at(text, at) else {
            return Some((n, at));
        };
        let low = digit_at(text, at + 1)?;
        out[n] = high * 16 + low;
        at += 2;
    }
    Some((out.len(), at))
}
