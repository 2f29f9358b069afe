// The clock of a candump log: which ticks are due before a line of it.
ghost use Rattle.std.specs.Prelude.{◌≡◌};
ghost use Rattle.replay_script.specs.Clocks.{time_in, unset_clock, due_of};

use replay_text::words::Word;
use replay_text::{after, byte_at, digits};

// More ticks than a day has are never run at once.
const DAY: u64 = 1_728_000;

// Time zero, once a line has set it, and the ticks run since by such lines.
#[derive(Clone, Copy)]
pub struct Clock {
    pub zero: Option<u64>,
    pub ran: u64,
}

// (SECONDS.MICROS), 1 to 12 digits and six, in microseconds.
#[tactic(auto, using(crate::proofs::Times::twelve_fit, crate::proofs::Times::six_fit), unfolding(crate::specs::Clocks::time_in, crate::specs::Clocks::is_time))]
pub fn read_time(text: &[u8], w: Word) -> Option<u64>
    ensures { result ≡ time_in text.now w }
{
    let seconds = digits::read_digits(text, after(w.from), 10);
    let micros = digits::read_digits(text, after(seconds.at), 10);
    if byte_at(text, w.from) == b'('
        && byte_at(text, seconds.at) == b'.'
        && byte_at(text, micros.at) == b')'
        && after(micros.at) == w.to
        && 1 <= seconds.count
        && seconds.count <= 12
        && micros.count == 6
    {
        Some(seconds.value * 1_000_000 + micros.value)
    } else {
        None
    }
}

impl Clock {
    pub fn start() -> Clock
        ensures { result ≡ unset_clock }
    {
        Clock { zero: None, ran: 0 }
    }

    // The ticks to run, as many as there are whole 50 ms from time zero, less those already run, and the clock after
    // them; none where they are too many.
    #[tactic(auto, unfolding(crate::specs::Clocks::due_of, crate::specs::Clocks::due_from))]
    pub fn due(self, now: u64) -> Option<(u64, Clock)>
        ensures { result ≡ due_of self now }
    {
        let Some(zero) = self.zero else {
            let set = Clock {
                zero: Some(now),
                ran: self.ran,
            };
            return Some((0, set));
        };
        let n = (now.saturating_sub(zero) / 50_000).saturating_sub(self.ran);
        if DAY < n {
            return None;
        }
        let later = Clock {
            zero: self.zero,
            ran: self.ran + n,
        };
        Some((n, later))
    }
}
