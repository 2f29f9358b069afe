// The checks of a received frame (01, "Numbers returned"): 3 to 8, which ask for nothing but our own address, and 9.
ghost use Rattle.std.specs.Prelude.{◌≡◌, eqb, take};
ghost use Rattle.std.specs.List.{list_any};
ghost use Rattle.refusals.specs.Frame.{not_can, flags_set, not_for_us, bad_source, message_in, frame_number, listed, may_speak};
ghost use Rattle.numbers.specs.Numbers.{answered};

use messages::identifier;
use messages::identifier::Identifier;
use messages::received::Message;
use numbers::Refusal;
use session_states::states::State;
use settings::Stations;

// 3: no identifier or length of CAN.
#[tactic(auto, unfolding(crate::specs::Frame::not_can))]
fn not_can(id: u32, bytes: &[u8]) -> bool
    ensures { result ≡ not_can id bytes.now }
{
    (0x2000_0000 <= id) | (8 < bytes.len())
}

// 4: reserved or data page set.
#[tactic(auto, unfolding(crate::specs::Frame::flags_set))]
fn flags_set(p: Identifier) -> bool
    ensures { result ≡ flags_set p }
{
    (p.reserved == 1) | (p.page == 1)
}

// 5: a broadcast, or for another target.
#[tactic(auto, unfolding(crate::specs::Frame::not_for_us))]
fn not_for_us(own: u8, p: Identifier) -> bool
    ensures { result ≡ not_for_us own p }
{
    (identifier::FIRST_BROADCAST <= p.pf) | (p.ps != own)
}

// 6: a source that no other node may have.
#[tactic(auto, unfolding(crate::specs::Frame::bad_source))]
fn bad_source(own: u8, p: Identifier) -> bool
    ensures { result ≡ bad_source own p }
{
    (p.source == own) | ((p.source == 254) | (p.source == 255))
}

// 3 to 8, in numeric order: the message in a frame, or the first check that refuses it.
#[tactic(auto, unfolding(crate::specs::Frame::frame_number, crate::specs::Frame::message_in, crate::specs::Frame::long_enough))]
pub fn message_in(own: u8, id: u32, bytes: &[u8]) -> Result<Message, Refusal>
    ensures number { answered result ≡ frame_number own id bytes.now }
    ensures answer { result ≡ message_in own id bytes.now }
{
    if not_can(id, bytes) {
        return Err(Refusal::NotCan);
    }
    let p = Identifier::from(id);
    if flags_set(p) {
        return Err(Refusal::FlagSet);
    }
    if not_for_us(own, p) {
        return Err(Refusal::NotForUs);
    }
    if bad_source(own, p) {
        return Err(Refusal::BadSource);
    }
    let m = Message::try_from(p.pf)?;
    if bytes.len() < m.least_length() as usize {
        return Err(Refusal::TooShort);
    }
    Ok(m)
}

// One of the first `count` addresses is this one. Stays beside `any_asks` of `queries`: another type, another test, and
// the library's chain is all that the two share.
fn any_is(addresses: &[u8], count: u16, source: u8) -> bool
    ensures { result ≡ list_any (eqb source) (take count addresses.now) }
{
    addresses.iter().take(count as usize).any(|a| source == *a)
}

// A station of the list.
#[tactic(auto, using(crate::proofs::Listed::any_listed), unfolding(crate::specs::Frame::listed))]
fn is_listed(source: u8, s: Stations) -> bool
    ensures { result ≡ listed source s }
{
    let four = [s.first, s.second, s.third, s.fourth];
    any_is(&four, s.count, source)
}

// 9: in Idle a listed station may speak, else the session's own alone.
pub fn may_speak(state: State, station: u8, s: Stations, source: u8) -> bool
    ensures { result ≡ may_speak state station s source }
{
    if state.is_idle() {
        is_listed(source, s)
    } else {
        source == station
    }
}
