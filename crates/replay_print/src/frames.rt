// The frames that a tick sends, as candump writes them.
ghost use Rattle.replay_print.specs.Out.{Prints};
ghost use Rattle.replay_print.specs.Frames.{time_text, frame_text, sent_line, sent_text};

use crate::out::Out;
use std::io::Write;

// The bytes in which a frame is laid.
const RECORD: usize = 13;

// The time of a tick, 50 ms each: (SSSSSSSSSS.UUUUUU).
fn time<W: Write>(o: &mut Out<W>, tick: u64)
    ensures { Prints o.old o.new (time_text tick) }
{
    o.put(b'(');
    o.decimal(tick / 20, 10);
    o.put(b'.');
    o.decimal(tick % 20 * 50_000, 6);
    o.put(b')');
}

// A frame: its identifier, of which the last byte is laid first, its length, which is always eight, and its data.
fn frame<W: Write>(o: &mut Out<W>, laid: &[u8; RECORD])
    ensures { Prints o.old o.new (frame_text laid.now) }
{
    o.byte(laid[3]);
    o.byte(laid[2]);
    o.byte(laid[1]);
    o.byte(laid[0]);
    o.put(b'#');
    o.bytes(&laid[5..]);
}

// Its line, for a tick that has sent it.
fn line<W: Write>(o: &mut Out<W>, laid: &[u8; RECORD], tick: u64)
    ensures { Prints o.old o.new (sent_line tick laid.now) }
{
    time(o, tick);
    o.text(b" can0 ");
    frame(o, laid);
    o.put(b'\n');
}

// The frames that stand whole in the bytes, a line each.
#[tactic(auto, using(crate::proofs::SentLines::lines_next), unfolding(crate::specs::Frames::sent_lines, crate::specs::Frames::sent_text, crate::specs::Out::laid_of))]
pub fn sent<W: Write>(o: &mut Out<W>, bytes: &[u8], tick: u64)
    ensures { Prints o.old o.new (sent_text tick bytes.now) }
{
    let (records, _) = bytes.as_chunks::<RECORD>();
    for record in records {
        line(o, record, tick);
    }
}
