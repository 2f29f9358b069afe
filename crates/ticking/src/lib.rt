// What a tick sends, laid into the lent buffer: the session's frames, the broadcasts where they are due, and the cell
// frame where one is due (01, "Session by tick", "Broadcasts and cell answers"). This crate may not know controllers,
// cell queries or refusals: its caller shows that the buffer has room, and hands on cells that were
// accepted. The room stays asked of each function: each lays another number of frames.
#![tactic(auto)]

ghost use Rattle.std.specs.Option.{option_to_list};
ghost use Rattle.std.specs.Prelude.{◌++◌, ◌+◌, ◌*◌, ◌≤◌, length};
ghost use Rattle.frames.specs.Frame.{record_size};
ghost use Rattle.frames.specs.InnerSent.{Sent};
ghost use Rattle.session.specs.Frames.{frame_list};
ghost use Rattle.broadcasts.specs.Sendings.{broadcast_at};

use broadcasts::Broadcasts;
use broadcasts::beat::Beat;
use cells::accepted::Accepted;
use frames::Frame;
use readings::Readings;
use session::ChargeFrames;
use settings::Settings;

// The session's frames: at most three.
fn charge(f: &ChargeFrames, buf: &mut [u8], at: usize) -> usize
    requires { at + 3 * record_size ≤ length buf.old }
    ensures { Sent 3 buf.old buf.new at result (frame_list f.now) }
{
    match *f {
        ChargeFrames::Nothing => at,
        ChargeFrames::One(a) => frames::send_all(&[a], buf, at),
        ChargeFrames::Two(a, b) => frames::send_all(&[a, b], buf, at),
        ChargeFrames::Three(a, b, c) => frames::send_all(&[a, b, c], buf, at),
    }
}

// The broadcasts, where they are due.
fn broadcast(x: Settings, beat: Beat, r: Readings, c: Accepted, buf: &mut [u8], at: usize) -> usize
    requires { at + 5 * record_size ≤ length buf.old }
    ensures { Sent 5 buf.old buf.new at result
        (broadcast_at beat.tick x.own x.versions r c.cells) }
{
    if beat.due() {
        let sending = Broadcasts::new(x.own, x.versions, beat.heartbeat(), r, c);
        frames::send_all(&sending.in_order(), buf, at)
    } else {
        at
    }
}

// All of them, in their order, from the buffer's start: the bytes that they take.
pub fn lay(
    x: Settings,
    beat: Beat,
    r: Readings,
    c: Accepted,
    charged: &ChargeFrames,
    cell: Option<Frame>,
    buf: &mut [u8],
) -> usize
    requires { 9 * record_size ≤ length buf.old }
    ensures { Sent 9 buf.old buf.new 0 result
        (frame_list charged.now
        ++ (broadcast_at beat.tick x.own x.versions r c.cells ++ option_to_list cell)) }
{
    let a = charge(charged, buf, 0);
    let b = broadcast(x, beat, r, c, buf, a);
    match cell {
        Some(frame) => frame.send(buf, b),
        None => b,
    }
}
