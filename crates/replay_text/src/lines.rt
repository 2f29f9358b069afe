// The lines of the input: where each ends, and what is held of one that the input has not ended yet.
ghost use Rattle.std.specs.Prelude.{◌≡◌, ◌+◌, ◌≤◌, length, drop};
ghost use Rattle.replay_text.specs.Chars.{laid_first};
ghost use Rattle.replay_text.specs.Lines.{line_end, past_last, kept_of, shortened_of};

use crate::{past_all, words};

// As many characters as a line may have.
pub const LONGEST: usize = 4096;

// The place of the newline from a place on. It is never before that one, so that a walk from line to line ends, nor
// further than the text is long.
#[tactic(auto, using(crate::proofs::Walks::past_from, crate::proofs::Walks::past_within))]
pub fn line_end(text: &[u8], from: usize) -> usize
    ensures { (from ≤ result) × (result ≤ from + length text.now) × (result ≡ line_end text.now from) }
{
    past_all(text, from, |b| b != b'\n')
}

// The place past the last newline; 0 where there is none.
#[tactic(auto, using(crate::proofs::Held::last_here, crate::proofs::Held::last_before), unfolding(crate::specs::Lines::past_last))]
pub fn past_last(text: &[u8]) -> usize
    ensures { result ≡ past_last text.now }
{
    for at in (0..text.len()).rev() {
        if text[at] == b'\n' {
            return at + 1;
        }
    }
    0
}

// The characters from a place on, moved to the start: how many.
#[tactic(auto, using(crate::proofs::Held::moved_rest))]
pub fn moved(text: &mut [u8], from: usize) -> usize
    ensures answer { result ≡ length (drop from text.old) }
    ensures later { text.new ≡ laid_first (drop from text.old) text.old }
{
    let start = from.min(text.len());
    text.copy_within(start.., 0);
    text.len() - start
}

// The beginning of a line, held whole: how many characters are kept of it. Of a line that is too long to be read only
// that it is so matters, and whether it is blank or a comment: so one character more than a line may have is kept, and
// where all before that one are gaps, the first that is none stands in its place.
#[tactic(auto, unfolding(crate::specs::Lines::kept_of, crate::specs::Lines::shortened_of))]
pub fn shortened(line: &mut [u8]) -> usize
    ensures answer { result ≡ kept_of (length line.old) }
    ensures later { line.new ≡ shortened_of line.old }
{
    let n = line.len();
    if n <= LONGEST {
        return n;
    }
    let first = words::past_gaps(line, 0);
    if LONGEST < first && first < n {
        line[LONGEST] = line[first];
    }
    LONGEST + 1
}
