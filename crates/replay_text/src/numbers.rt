// The decimal numbers that stand in a line.
ghost use Rattle.std.specs.Prelude.{◌≡◌, ℤ, Option};
ghost use Rattle.std.specs.Result.{result_ok};
ghost use Rattle.replay_text.specs.Numbers.{past_sign, number_in, up_to, of_16_bits, read_as, only_as, only_in};
ghost use Rattle.replay_text.specs.Numbers.{told_above, told_below, good_or_told, next_within, next_in_16_bits, only_within};

use crate::words::Word;
use crate::{after, byte_at, digits, words};

// A type that the numbers of a line are read as. Each instance is the library's `TryFrom` under a definition of its own,
// which `read_as` names.
pub trait Number: Copy {
    // The value that a number is, where the type holds it.
    ghost of: { ℤ → Option Self };

    fn of(x: i64) -> Option<Self>
        ensures { result ≡ of x };
}

impl Number for u8 {
    ghost of = { up_to 255 };

    #[tactic(auto, using(crate::proofs::Conversions::ok_u8))]
    fn of(x: i64) -> Option<u8> {
        u8::try_from(x).ok()
    }
}

impl Number for u16 {
    ghost of = { up_to 65535 };

    #[tactic(auto, using(crate::proofs::Conversions::ok_u16))]
    fn of(x: i64) -> Option<u16> {
        u16::try_from(x).ok()
    }
}

impl Number for u64 {
    ghost of = { up_to 18446744073709551615 };

    #[tactic(auto, using(crate::proofs::Conversions::ok_u64))]
    fn of(x: i64) -> Option<u64> {
        u64::try_from(x).ok()
    }
}

impl Number for i16 {
    ghost of = { of_16_bits };

    #[tactic(auto, using(crate::proofs::Conversions::ok_i16))]
    fn of(x: i64) -> Option<i16> {
        i16::try_from(x).ok()
    }
}

// The place past a word's sign, where it has one.
#[tactic(auto, unfolding(crate::specs::Numbers::past_sign))]
fn past_sign(text: &[u8], from: usize) -> usize
    ensures { result ≡ past_sign text.now from }
{
    match byte_at(text, from) {
        b'-' | b'+' => after(from),
        _ => from,
    }
}

// The word as a decimal number with a sign or none.
#[tactic(auto, using(crate::proofs::Values::ten_top), unfolding(crate::specs::Numbers::number_in, crate::specs::Numbers::number_of))]
fn read_number(text: &[u8], w: Word) -> Option<i64>
    ensures { result ≡ number_in text.now w }
{
    let d = digits::read_digits(text, past_sign(text, w.from), 10);
    if d.count == 0 || d.at != w.to {
        return None;
    }
    let x = d.value as i64;
    if byte_at(text, w.from) == b'-' {
        Some(-x)
    } else {
        Some(x)
    }
}

// The next word as a number, and the place past it. Always inlined, as each number of a table asks for it: its answer
// then does not go by way of memory.
#[inline(always)]
#[tactic(auto, unfolding(crate::specs::Numbers::read_as))]
pub fn next_number<T: Number>(text: &[u8], from: usize) -> Option<(T, usize)>
    ensures { result ≡ read_as T.of text.now from }
{
    let w = words::next_word(text, from);
    let x = T::of(read_number(text, w)?)?;
    Some((x, w.to))
}

// The one number from a place to the end of the line.
#[tactic(auto, unfolding(crate::specs::Numbers::only_as))]
pub fn only_number<T: Number>(text: &[u8], from: usize) -> Option<T>
    ensures { result ≡ only_as T.of text.now from }
{
    let (x, at) = next_number(text, from)?;
    if words::is_end(text, at) {
        Some(x)
    } else {
        None
    }
}

// A number, or none, that is to lie from 0 up to so much. Where it does not, `Err` has the number itself where it is
// above that, and 0 where it is below 0 or none.
#[tactic(auto, unfolding(crate::specs::Numbers::up_to))]
fn within(x: Option<i64>, most: u64) -> Result<u64, u64>
    ensures { result ≡ good_or_told (up_to most) told_above x }
{
    let Some(x) = x.and_then(u64::of) else {
        return Err(0);
    };
    if x <= most { Ok(x) } else { Err(x) }
}

// A number, or none, that is to be one of 16 bits with its sign. Where it is not, `Err` has -32768 where it is below
// these, and 0 where it is above or none.
#[tactic(auto, unfolding(crate::specs::Numbers::of_16_bits))]
fn in_16_bits(x: Option<i64>) -> Result<i16, i16>
    ensures { result ≡ good_or_told of_16_bits told_below x }
{
    let Some(x) = x else {
        return Err(0);
    };
    i16::of(x).ok_or(if x < 0 { i16::MIN } else { 0 })
}

// The next word as a number from 0 up to so much, as `within` tells it, and the place past the word, whatever it is.
#[tactic(auto, unfolding(crate::specs::Numbers::next_or_told))]
pub fn next_up_to(text: &[u8], from: usize, most: u64) -> (Result<u64, u64>, usize)
    ensures { result ≡ next_within text.now from most }
{
    let w = words::next_word(text, from);
    (within(read_number(text, w), most), w.to)
}

// The next word as a number of 16 bits with its sign, as `in_16_bits` tells it, and the place past the word likewise.
#[tactic(auto, unfolding(crate::specs::Numbers::next_or_told))]
pub fn next_signed(text: &[u8], from: usize) -> (Result<i16, i16>, usize)
    ensures { result ≡ next_in_16_bits text.now from }
{
    let w = words::next_word(text, from);
    (in_16_bits(read_number(text, w)), w.to)
}

// The one number from a place to the end of the line, from 0 up to so much, and the place past its word. Where another
// word follows, `Err` has the number.
#[tactic(auto, using(crate::proofs::Conversions::only_ok), unfolding(crate::specs::Numbers::only_within))]
pub fn only_up_to(text: &[u8], from: usize, most: u64) -> (Result<u64, u64>, usize)
    ensures told { result ≡ only_within text.now from most }
    ensures number { result_ok result.0 ≡ only_in text.now from most }
{
    match next_up_to(text, from, most) {
        (Ok(x), at) if !words::is_end(text, at) => (Err(x), at),
        told => told,
    }
}
