// One line of a script, read as the call or the setting that it asks for: a settings record, what each later tick is
// lent (readings, cell tables, a buffer), ticks, a received frame, or the settings in use written (docs/REPLAY.md,
// "Input", lists the kinds of line). Besides, what each tick is lent, and which ticks are due by a log's clock. This
// crate may not know any controller, what a call comes to, nor any rule of the paper.
#![tactic(auto)]

ghost use Rattle.std.specs.Prelude.{◌≡◌};
ghost use Rattle.replay_script.specs.Lines.{kind_in, asks_of, bytes_of, volts_of, temps_of};
ghost use Rattle.replay_script.specs.Lines.{is_longer, asked_in, bytes_after, volts_after, temps_after};

use lent::{Temperatures, Voltages};
use readings::Readings;
use replay_text::hex::Bytes;
use replay_text::lines::LONGEST;
use replay_text::{byte_at, words};

pub mod clock;
pub mod frames;
pub mod lent;
pub mod settings;
pub mod ticks;

// What a line asks for: nothing; a settings record of so many bytes; the readings, so many voltages, so many
// temperatures or a buffer of such a length lent to later ticks; so many ticks; a received frame, by its identifier and
// the number of its data bytes; such a frame at a log's time, in microseconds; the settings in use written into so many
// bytes. The bytes and the entries of tables stand in arrays beside it.
#[derive(Clone, Copy)]
pub enum Asked {
    Nothing,
    Settings(usize),
    Readings(Readings),
    Voltages(usize),
    Temperatures(usize),
    Buffer(usize),
    Ticks(u64),
    Frame(u32, usize),
    Logged(u64, u32, usize),
    Write(usize),
}

// The kinds of line, by their first word.
#[derive(Clone, Copy)]
enum Kind {
    Settings,
    Readings,
    Voltages,
    Temperatures,
    Buffer,
    Tick,
    Write,
    Logged,
    Frame,
}

// The kind of a line whose first word begins at a place; what no known word begins is a frame.
#[tactic(auto, unfolding(crate::specs::Lines::kind_in))]
fn kind_of(text: &[u8], from: usize) -> Kind
    ensures { result ≡ kind_in text.now from }
{
    if words::is_word(text, from, b"settings") {
        return Kind::Settings;
    }
    if words::is_word(text, from, b"readings") {
        return Kind::Readings;
    }
    if words::is_word(text, from, b"voltages") {
        return Kind::Voltages;
    }
    if words::is_word(text, from, b"temperatures") {
        return Kind::Temperatures;
    }
    if words::is_word(text, from, b"buffer") {
        return Kind::Buffer;
    }
    if words::is_word(text, from, b"tick") {
        return Kind::Tick;
    }
    if words::is_word(text, from, b"write") {
        return Kind::Write;
    }
    if byte_at(text, from) == b'(' {
        return Kind::Logged;
    }
    Kind::Frame
}

// What a line asks for whose first word begins at a place. Stays a match on the kind: the readers take different arrays,
// so that a closure for each would hide which array a kind may change, and be no shorter.
#[tactic(auto, unfolding(crate::specs::Lines::asks_of, crate::specs::Lines::bytes_of, crate::specs::Lines::volts_of, crate::specs::Lines::temps_of))]
fn read_words(
    text: &[u8],
    from: usize,
    bytes: &mut Bytes,
    v: &mut Voltages,
    t: &mut Temperatures,
) -> Option<Asked>
    ensures answer { result ≡ asks_of text.now from (kind_in text.now from) }
    ensures bytes { bytes.new
        ≡ bytes_of text.now from bytes.old (kind_in text.now from) }
    ensures volts { v.new
        ≡ volts_of text.now from v.old (kind_in text.now from) }
    ensures temps { t.new
        ≡ temps_of text.now from t.old (kind_in text.now from) }
{
    let past = words::word_end(text, from);
    match kind_of(text, from) {
        Kind::Settings => settings::record(text, past, bytes),
        Kind::Readings => ticks::readings(text, past),
        Kind::Voltages => ticks::entries(text, past, 0, v).map(Asked::Voltages),
        Kind::Temperatures => ticks::entries(text, past, 0, t).map(Asked::Temperatures),
        Kind::Buffer => ticks::buffer(text, past),
        Kind::Tick => ticks::ticks(text, past),
        Kind::Write => settings::write(text, past),
        Kind::Logged => frames::logged(text, from, bytes),
        Kind::Frame => frames::frame(text, from, bytes),
    }
}

// Whether a line from a place up to its newline has more characters than a line may have.
fn longer(at: usize, end: usize) -> bool
    ensures { result ≡ is_longer at end }
{
    LONGEST < end.saturating_sub(at)
}

// What the line asks for that begins at a place and has its newline at another; none where it cannot be read. The bytes
// that it gives are laid into `bytes`, the entries of a table into that table; of a table that cannot be read nothing is
// kept. A blank line or a comment is ignored, however long; any other may have 4,096 characters.
#[tactic(auto, unfolding(crate::specs::Lines::is_ignored, crate::specs::Lines::asked_in, crate::specs::Lines::bytes_after, crate::specs::Lines::volts_after, crate::specs::Lines::temps_after))]
pub fn read_line(
    text: &[u8],
    at: usize,
    end: usize,
    bytes: &mut Bytes,
    v: &mut Voltages,
    t: &mut Temperatures,
) -> Option<Asked>
    ensures answer { result ≡ asked_in text.now at end }
    ensures bytes { bytes.new ≡ bytes_after text.now at end bytes.old }
    ensures volts { v.new ≡ volts_after text.now at end v.old }
    ensures temps { t.new ≡ temps_after text.now at end t.old }
{
    let from = words::past_gaps(text, at);
    let b = byte_at(text, from);
    if (b == b'\n') | (b == b'#') {
        return Some(Asked::Nothing);
    }
    if longer(at, end) {
        return None;
    }
    read_words(text, from, bytes, v, t)
}
