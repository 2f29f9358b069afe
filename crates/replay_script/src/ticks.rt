// The lines that ask for ticks, and those that set what ticks are lent.
ghost use Rattle.std.specs.Prelude.{◌≡◌, length, option_map};
ghost use Rattle.replay_script.specs.Ticks.{ticks_in, length_in, buffer_in, readings_in};
ghost use Rattle.replay_script.specs.Tables.{entries_in, table_of};

use crate::Asked;
use crate::lent::ENTRIES;
use readings::{Marks, Readings};
use replay_text::numbers::{Number, next_number, only_number, only_up_to};
use replay_text::words;
use units::TenthVolts;

// As many ticks as one line may ask for.
const MOST_TICKS: u64 = 10_000_000;

// The longest buffer that a line may ask for.
const MOST_ROOM: u64 = 4096;

// One tick, or so many.
#[tactic(auto, unfolding(crate::specs::Ticks::ticks_in))]
pub fn ticks(text: &[u8], past: usize) -> Option<Asked>
    ensures { result ≡ ticks_in text.now past }
{
    if words::is_end(text, past) {
        return Some(Asked::Ticks(1));
    }
    let (n, _) = only_up_to(text, past, MOST_TICKS);
    n.ok().map(Asked::Ticks)
}

// The one number of a line as a buffer's length.
pub fn read_length(text: &[u8], past: usize) -> Option<usize>
    ensures { result ≡ length_in text.now past }
{
    let (n, _) = only_up_to(text, past, MOST_ROOM);
    Some(n.ok()? as usize)
}

// The length of a buffer.
pub fn buffer(text: &[u8], past: usize) -> Option<Asked>
    ensures { result ≡ buffer_in text.now past }
{
    read_length(text, past).map(Asked::Buffer)
}

// Ten numbers and no more.
#[tactic(auto, unfolding(crate::specs::Ticks::readings_in))]
pub fn readings(text: &[u8], past: usize) -> Option<Asked>
    ensures { result ≡ readings_in text.now past }
{
    let (one, at) = next_number(text, past)?;
    let (two, at) = next_number(text, at)?;
    let (soc, at) = next_number(text, at)?;
    let (current, at) = next_number(text, at)?;
    let (pack, at) = next_number(text, at)?;
    let (capacity, at) = next_number(text, at)?;
    let (af, at) = next_number(text, at)?;
    let (lf, at) = next_number(text, at)?;
    let (aw, at) = next_number(text, at)?;
    let lw = only_number(text, at)?;
    Some(Asked::Readings(Readings {
        one,
        two,
        soc,
        current,
        pack: TenthVolts(pack),
        capacity,
        faults: Marks {
            active: af,
            latched: lf,
        },
        warnings: Marks {
            active: aw,
            latched: lw,
        },
    }))
}

// The numbers to the end of the line, at most as many as a table has, laid into it with zeros after them: how many. Of
// a line that cannot be read nothing is kept.
#[tactic(auto, using(crate::proofs::Entries::stored_none, crate::proofs::Entries::stored_more, crate::proofs::Entries::stored_bad, crate::proofs::Entries::stored_over, crate::proofs::Entries::stored_done))]
pub fn entries<T: Number>(
    text: &[u8],
    past: usize,
    zero: T,
    table: &mut [T; ENTRIES],
) -> Option<usize>
    ensures answer { result ≡ option_map length (entries_in T.of text.now past) }
    ensures later { table.new ≡ table_of zero table.old (entries_in T.of text.now past) }
{
    let mut read = [zero; ENTRIES];
    let mut at = past;
    for n in 0..ENTRIES {
        if words::is_end(text, at) {
            *table = read;
            return Some(n);
        }
        let (x, next) = next_number(text, at)?;
        read[n] = x;
        at = next;
    }
    if !words::is_end(text, at) {
        return None;
    }
    *table = read;
    Some(ENTRIES)
}
