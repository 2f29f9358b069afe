// The lines of numbers answered, and those that answer a line for which no call is made.
ghost use Rattle.replay_print.specs.Out.{Prints};
ghost use Rattle.replay_print.specs.Answers.{numbered_line, settings_line, frame_line, tick_line};
ghost use Rattle.replay_print.specs.Answers.{unreadable_line, no_controller_line, written_text, write_line};

use crate::out::Out;
use std::io::Write;

// A word, a number and the end of the line.
fn numbered<W: Write>(o: &mut Out<W>, word: &[u8], n: u64)
    ensures { Prints o.old o.new (numbered_line word.now n) }
{
    o.text(word);
    o.decimal(n, 1);
    o.put(b'\n');
}

// The number of a settings record.
// These stay four functions: each is its word alone, over the one `numbered`, and an enum of words would be longer.
pub fn settings<W: Write>(o: &mut Out<W>, number: u8)
    ensures { Prints o.old o.new (settings_line number) }
{
    numbered(o, b"settings ", number as u64);
}

// The number of a received frame.
pub fn frame<W: Write>(o: &mut Out<W>, number: u8)
    ensures { Prints o.old o.new (frame_line number) }
{
    numbered(o, b"frame ", number as u64);
}

// The number of a tick that is refused.
pub fn tick<W: Write>(o: &mut Out<W>, number: u8)
    ensures { Prints o.old o.new (tick_line number) }
{
    numbered(o, b"tick ", number as u64);
}

// The bytes written: the first n of the buffer, or `-` for none.
#[tactic(auto, using(std::proofs::lemmas::List::take_min), unfolding(crate::specs::Answers::written_text))]
fn written<W: Write>(o: &mut Out<W>, n: usize, buf: &[u8])
    ensures { Prints o.old o.new (written_text n buf.now) }
{
    if n == 0 {
        o.put(b'-');
    } else {
        o.bytes(&buf[..n.min(buf.len())]);
    }
}

// A write's number, how many bytes it wrote, and these, the first ones of the buffer.
// Stays a count beside the bytes: `write_line` is promised of a count past their end too, which no slice can have.
pub fn write<W: Write>(o: &mut Out<W>, number: u8, n: usize, buf: &[u8])
    ensures { Prints o.old o.new (write_line number n buf.now) }
{
    o.text(b"write ");
    o.decimal(number as u64, 1);
    o.put(b' ');
    o.decimal(n as u64, 1);
    o.put(b' ');
    written(o, n, buf);
    o.put(b'\n');
}

// A call before there is a controller.
pub fn no_controller<W: Write>(o: &mut Out<W>)
    ensures { Prints o.old o.new no_controller_line }
{
    o.text(b"no controller\n");
}

// A line that cannot be read, by its number.
pub fn unreadable<W: Write>(o: &mut Out<W>, number: u64)
    ensures { Prints o.old o.new (unreadable_line number) }
{
    numbered(o, b"unreadable line ", number);
}
