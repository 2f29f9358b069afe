// The lines of received frames.
ghost use Rattle.std.specs.Prelude.{◌≡◌};
ghost use Rattle.replay_script.specs.Frames.{identifier_in, data_in, received_in};
ghost use Rattle.replay_script.specs.Frames.{frame_in, frame_bytes, logged_in, logged_bytes};
ghost use Rattle.replay_text.specs.Chars.{laid_first};
ghost use Rattle.replay_text.specs.Hex.{bytes_in};

use crate::{Asked, clock};
use replay_text::hex::Bytes;
use replay_text::{after, byte_at, digits, hex, words};

// As many hex digits as an identifier may have.
const MOST_DIGITS: usize = 8;

// As many data bytes as a line may have.
const MOST_DATA: usize = 64;

// An identifier, of 1 to 8 hex digits before the `#`, and the place past that.
#[tactic(auto, using(crate::proofs::Times::eight_fit), unfolding(crate::specs::Frames::identifier_of))]
fn read_identifier(text: &[u8], from: usize) -> Option<(u32, usize)>
    ensures { result ≡ identifier_in text.now from }
{
    let d = digits::read_digits(text, from, 16);
    if 1 <= d.count && d.count <= MOST_DIGITS && byte_at(text, d.at) == b'#' {
        Some((d.value as u32, after(d.at)))
    } else {
        None
    }
}

// The data from a place on, to the end of the line: how many bytes.
#[tactic(auto, unfolding(crate::specs::Frames::data_of))]
fn read_data(text: &[u8], from: usize, bytes: &mut Bytes) -> Option<usize>
    ensures answer { result ≡ data_in text.now from }
    ensures later { bytes.new ≡ laid_first (bytes_in text.now from) bytes.old }
{
    let (n, at) = hex::read_bytes(text, from, bytes)?;
    if n <= MOST_DATA && words::is_end(text, at) {
        Some(n)
    } else {
        None
    }
}

// ID#DATA, the last word of its line: the identifier, and the number of the data bytes.
#[tactic(auto, unfolding(crate::specs::Frames::received_of, crate::specs::Frames::data_bytes))]
fn read_frame(text: &[u8], from: usize, bytes: &mut Bytes) -> Option<(u32, usize)>
    ensures answer { result ≡ received_in text.now from }
    ensures later { bytes.new ≡ frame_bytes text.now from bytes.old }
{
    let (id, at) = read_identifier(text, from)?;
    let n = read_data(text, at, bytes)?;
    Some((id, n))
}

// ID#DATA from a place on.
#[tactic(auto, unfolding(crate::specs::Frames::frame_of))]
pub fn frame(text: &[u8], from: usize, bytes: &mut Bytes) -> Option<Asked>
    ensures answer { result ≡ frame_in text.now from }
    ensures later { bytes.new ≡ frame_bytes text.now from bytes.old }
{
    let (id, n) = read_frame(text, from, bytes)?;
    Some(Asked::Frame(id, n))
}

// (SECONDS.MICROS) IFACE ID#DATA from a place on.
#[tactic(auto, unfolding(crate::specs::Frames::logged_of, crate::specs::Frames::frame_at_of, crate::specs::Frames::timed_bytes))]
pub fn logged(text: &[u8], from: usize, bytes: &mut Bytes) -> Option<Asked>
    ensures answer { result ≡ logged_in text.now from }
    ensures later { bytes.new ≡ logged_bytes text.now from bytes.old }
{
    let stamp = words::next_word(text, from);
    let face = words::next_word(text, stamp.to);
    let at = words::past_gaps(text, face.to);
    let time = clock::read_time(text, stamp)?;
    let (id, n) = read_frame(text, at, bytes)?;
    Some(Asked::Logged(time, id, n))
}
