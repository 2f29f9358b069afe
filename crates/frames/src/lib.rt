// A frame as it goes on the bus, the record that it is in a buffer, and frames laid one after the other into a lent
// buffer, with a promise of the buffer's whole later contents. This crate may not know when a frame is due, or what its
// data mean.
#![tactic(auto)]

ghost use Rattle.std.specs.Prelude.{◌≡◌, [], ◌∷◌, ◌+◌, ◌*◌, ◌≤◌, length};
ghost use Rattle.frames.specs.Frame.{record_size, frame_of, frame_record};
ghost use Rattle.frames.specs.InnerSent.{Sent};

use messages::identifier;
use messages::table::Row;

#[derive(Clone, Copy, Default)]
pub struct Frame {
    pub id: u32,
    pub length: u8,
    pub bytes: [u8; Frame::DATA],
}

impl Frame {
    // The bytes that a frame takes in a buffer.
    pub const RECORD: usize = 13;

    // The data bytes of a frame: every frame that we send has 8.
    pub const DATA: usize = 8;

    // A message of the table, from us to a target (a broadcast has its PS in the row).
    pub fn new(row: Row, target: u8, source: u8, bytes: [u8; Self::DATA]) -> Frame
        ensures { result ≡ frame_of row target source bytes }
    {
        Frame {
            id: identifier::identifier_of(row, target, source),
            length: row.length(),
            bytes,
        }
    }

    // Identifier in 4 bytes little endian, the length (8 in every row that we send), the data.
    #[tactic(auto, unfolding(crate::specs::Frame::frame_record))]
    pub fn record(self) -> [u8; Self::RECORD]
        ensures { result ≡ frame_record self }
    {
        let [i, j, k, l] = self.id.to_le_bytes();
        let [a, b, c, d, e, f, g, h] = self.bytes;
        [i, j, k, l, self.length, a, b, c, d, e, f, g, h]
    }

    // The frame's record laid at a place with room for it; the place past it is returned. The room stays asked of each
    // caller: every one lays another number of frames, so no type of buffer and place could have it as its invariant.
    pub fn send(self, buf: &mut [u8], at: usize) -> usize
        requires { at + record_size ≤ length buf.old }
        ensures { Sent 1 buf.old buf.new at result (self ∷ []) }
    {
        let r = self.record();
        buffers::lay(&r, buf, at)
    }
}

// The frames' records laid one after the other from a place with room for them, which is asked as of `send`; the place past
// them is returned.
pub fn send_all(frames: &[Frame], buf: &mut [u8], at: usize) -> usize
    requires { at + record_size * length frames.now ≤ length buf.old }
    ensures { Sent (length frames.now) buf.old buf.new at result frames.now }
{
    let mut next = at;
    for f in frames {
        next = f.send(buf, next);
    }
    next
}
