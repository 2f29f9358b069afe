// The words of a line, with spaces, tabs or carriage returns between them.
ghost use Rattle.std.specs.Prelude.{◌≡◌};
ghost use Rattle.replay_text.specs.Words.{is_gap, in_word, past_gaps, word_end, next_word, is_end, is_word};

use crate::{after, byte_at, past_all};

// The part of the text from a place up to another; empty where there is no word.
#[derive(Clone, Copy)]
pub struct Word {
    pub from: usize,
    pub to: usize,
}

// A space, a tab or a carriage return: what stands between words.
#[tactic(auto, unfolding(crate::specs::Words::is_gap))]
pub fn is_gap(b: u8) -> bool
    ensures { result ≡ is_gap b }
{
    matches!(b, b' ' | b'\t' | b'\r')
}

// A word goes on over any other character of the line.
#[tactic(auto, unfolding(crate::specs::Words::in_word))]
fn in_word(b: u8) -> bool
    ensures { result ≡ in_word b }
{
    !is_gap(b) && b != b'\n'
}

// The first place from one on that is no gap.
pub fn past_gaps(text: &[u8], from: usize) -> usize
    ensures { result ≡ past_gaps text.now from }
{
    past_all(text, from, is_gap)
}

// The first place from one on where no word goes on.
pub fn word_end(text: &[u8], from: usize) -> usize
    ensures { result ≡ word_end text.now from }
{
    past_all(text, from, in_word)
}

// The first word from a place on.
#[tactic(auto, unfolding(crate::specs::Words::next_word))]
pub fn next_word(text: &[u8], from: usize) -> Word
    ensures { result ≡ next_word text.now from }
{
    let at = past_gaps(text, from);
    Word {
        from: at,
        to: word_end(text, at),
    }
}

// Whether the line has no word from a place on.
#[tactic(auto, unfolding(crate::specs::Words::is_end))]
pub fn is_end(text: &[u8], from: usize) -> bool
    ensures { result ≡ is_end text.now from }
{
    byte_at(text, past_gaps(text, from)) == b'\n'
}

// Whether the word that begins at a place is this one.
#[tactic(auto, using(crate::proofs::Spelled::word_more, crate::proofs::Spelled::word_other, crate::proofs::Spelled::word_all))]
pub fn is_word(text: &[u8], from: usize, s: &[u8]) -> bool
    ensures { result ≡ is_word text.now from s.now }
{
    // Stays a walk: `is_word` reads a newline past the text, where a slice to compare has ended.
    let mut at = from;
    for b in s {
        if byte_at(text, at) != *b {
            return false;
        }
        at = after(at);
    }
    word_end(text, at) == at
}
