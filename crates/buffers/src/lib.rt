// Lent bytes. Reading a byte or a word of a slice, in it or past its end, and laying bytes into a lent buffer with a
// promise of all that the buffer then holds. This crate may not know what the bytes mean.
#![tactic(auto)]

ghost use Rattle.std.specs.Prelude.{◌≡◌, ◌+◌, ◌≤◌, ◌<◌, length, get_or};
ghost use Rattle.buffers.specs.InnerLaid.{Laid};
ghost use Rattle.buffers.specs.Words.{word_at};

// The byte at a place, and 0 past the end: a reader with nothing to ask of its caller.
pub fn byte_at(s: &[u8], at: usize) -> u8
    ensures { result ≡ get_or s.now at 0 }
{
    s.get(at).copied().unwrap_or(0)
}

// The word at a place, little endian; a byte past the end counts as 0.
pub fn word_at(s: &[u8], at: usize) -> u16
    requires { at < 0x1_0000_0000 }
    ensures { result ≡ word_at s.now at }
{
    u16::from_le_bytes([byte_at(s, at), byte_at(s, at + 1)])
}

// The bytes `s` stand in `buf` from `at` on, and nothing else of it changes; the place past them is returned.
#[tactic(auto, unfolding(crate::specs::InnerLaid::laid_at))]
pub fn lay(s: &[u8], buf: &mut [u8], at: usize) -> usize
    requires { at + length s.now ≤ length buf.old }
    ensures { Laid buf.old buf.new at result s.now }
{
    let past = at + s.len();
    buf[at..past].copy_from_slice(s);
    past
}
