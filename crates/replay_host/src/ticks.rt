// Ticks, one after the other, and what each was answered, sent and entered printed.
ghost use Rattle.std.specs.Prelude.{◌≡◌};
ghost use Rattle.numbers.specs.Numbers.{answered};
ghost use Rattle.replay_print.specs.Out.{Prints};
ghost use Rattle.replay_host.specs.Host.{keeps_of, Comes};
ghost use Rattle.replay_host.specs.Ticks.{lending, bytes_of, tick_text};
ghost use Rattle.replay_host.specs.Ticks.{tick_done, tick_buffer, ticks_done, ticks_buffer};

use crate::held::{Buffer, Host, number};
use numbers::Refusal;
use replay_calls::{calls, counts};
use replay_print::out::Out;
use replay_print::{answers, frames};
use replay_script::lent::{Lent, Temperatures, Voltages};
use std::io::Write;

// What each tick is lent: the readings, and the first so many of two tables and of a buffer.
#[derive(Clone, Copy)]
pub struct Loan {
    pub lent: Lent,
    pub volts: Voltages,
    pub temps: Temperatures,
    pub buffer: Buffer,
}

// What a tick was answered and sent: the frames of one that is accepted, which are the first so many bytes of the
// buffer, or the number of one that is refused.
#[tactic(auto, unfolding(crate::specs::Ticks::tick_text))]
fn print<W: Write>(o: &mut Out<W>, answer: Result<usize, Refusal>, count: u64, buf: &[u8])
    ensures { Prints o.old o.new (tick_text (answered answer) (bytes_of answer) count buf.now) }
{
    match answer {
        Ok(n) => frames::sent(o, calls::first(buf, n), count),
        Err(refusal) => answers::tick(o, refusal.number()),
    }
}

impl<W: Write> Host<W> {
    // One tick; none where there is no controller.
    fn tick(&mut self, loan: &mut Loan)
        ensures comes { Comes self.old self.new
            (tick_done loan.old.lent loan.old.volts loan.old.temps loan.old.buffer (keeps_of self.old)) }
        ensures loan_after { loan.new
            ≡ lending loan.old (tick_buffer loan.old.lent loan.old.volts loan.old.temps loan.old.buffer self.old.held) }
    {
        let before = self.standing();
        let Some(c) = &mut self.held else {
            return;
        };
        let answer = calls::tick(c, loan.lent, &loan.volts, &loan.temps, &mut loan.buffer);
        print(&mut self.out, answer, self.accepted, &loan.buffer);
        self.accepted = counts::counted(number(&answer), self.accepted);
        self.changed(before);
    }

    // So many ticks; none where there is no controller.
    pub fn ticks(&mut self, n: u64, loan: &mut Loan)
        ensures comes { Comes self.old self.new
            (ticks_done loan.old.lent loan.old.volts loan.old.temps n loan.old.buffer (keeps_of self.old)) }
        ensures loan_after { loan.new
            ≡ lending loan.old
            (ticks_buffer loan.old.lent loan.old.volts loan.old.temps n loan.old.buffer (keeps_of self.old)) }
    {
        if self.held.is_none() {
            return;
        }
        for _ in 0..n {
            self.tick(loan);
        }
    }
}
