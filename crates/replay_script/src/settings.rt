// The lines that ask for a settings record to be read, or for the settings in use to be written.
ghost use Rattle.std.specs.Prelude.{◌≡◌};
ghost use Rattle.replay_script.specs.Records.{closed_in, record_in, record_bytes, write_in};

use crate::{Asked, ticks};
use replay_text::hex::Bytes;
use replay_text::{after, byte_at, hex, words};

// A record of so many bytes, where no word begins or goes on from a place on.
#[tactic(auto, unfolding(crate::specs::Records::closed_in))]
fn closed(text: &[u8], at: usize, n: usize) -> Option<Asked>
    ensures { result ≡ closed_in text.now at n }
{
    if words::is_end(text, at) {
        Some(Asked::Settings(n))
    } else {
        None
    }
}

// The bytes of a settings record, or `-` for none, as the one word from a place on.
#[tactic(auto, using(crate::proofs::Unread::unread_newline, crate::proofs::Unread::unread_hyphen), unfolding(crate::specs::Records::record_at, crate::specs::Records::record_of))]
pub fn record(text: &[u8], past: usize, bytes: &mut Bytes) -> Option<Asked>
    ensures answer { result ≡ record_in text.now past }
    ensures later { bytes.new ≡ record_bytes text.now past bytes.old }
{
    let from = words::past_gaps(text, past);
    match byte_at(text, from) {
        b'\n' => None,
        b'-' => closed(text, after(from), 0),
        _ => {
            let (n, at) = hex::read_bytes(text, from, bytes)?;
            closed(text, at, n)
        }
    }
}

// The settings in use, into a buffer of a length.
pub fn write(text: &[u8], past: usize) -> Option<Asked>
    ensures { result ≡ write_in text.now past }
{
    ticks::read_length(text, past).map(Asked::Write)
}
