// The lines of the input, carried out one after the other.
ghost use Rattle.std.specs.Prelude.{◌≡◌};
ghost use Rattle.replay_host.specs.Lines.{world_of, start_world, Makes, clock_after};
ghost use Rattle.replay_host.specs.Lines.{carried_out, line_of, lines_done, CarriesOut};

use crate::held::Host;
use crate::ticks::Loan;
use replay_calls::{calls, counts};
use replay_print::out::Out;
use replay_script::clock::Clock;
use replay_script::lent::Lent;
use replay_script::{Asked, lent};
use replay_text::hex::Bytes;
use replay_text::{Text, lines};
use std::io::Write;

// All that a run keeps from line to line: the controller with the output, what ticks are lent, a log's clock, the
// line's number, and the bytes that a line gave.
#[derive(Clone, Copy, Drop)]
pub struct Run<W> {
    pub host: Host<W>,
    pub loan: Loan,
    pub clock: Clock,
    pub number: u64,
    pub bytes: Bytes,
}

// A log's clock after a line: only a frame of a log moves it.
#[tactic(auto, unfolding(crate::specs::Lines::clock_after))]
fn clock_after(c: Clock, asked: Asked) -> Clock
    ensures { result ≡ clock_after asked c }
{
    match asked {
        Asked::Logged(now, _, _) => match c.due(now) {
            Some((_, later)) => later,
            None => c,
        },
        _ => c,
    }
}

impl<W: Write> Run<W> {
    #[tactic(auto, unfolding(crate::specs::Lines::start_world))]
    pub fn start(out: Out<W>) -> Run<W>
        ensures { (world_of result ≡ start_world) × (result.host.out ≡ out) }
    {
        Run {
            host: Host::start(out),
            loan: Loan {
                lent: Lent::start(),
                volts: lent::first_voltages(),
                temps: lent::first_temperatures(),
                buffer: [0; 4096],
            },
            clock: Clock::start(),
            number: 0,
            bytes: [0; 2048],
        }
    }

    // The calls that a line asks for.
    fn calls(&mut self, asked: Asked)
        ensures { Makes self.old self.new asked }
    {
        match asked {
            Asked::Settings(n) => self.host.settings(calls::first(&self.bytes, n)),
            Asked::Ticks(n) => {
                self.host.absent();
                self.host.ticks(n, &mut self.loan);
            }
            Asked::Frame(id, n) => self.host.frame(id, calls::first(&self.bytes, n)),
            Asked::Logged(now, id, n) => match self.clock.due(now) {
                Some((due, _)) => {
                    self.host.ticks(due, &mut self.loan);
                    self.host.frame(id, calls::first(&self.bytes, n));
                }
                None => self.host.unreadable(self.number),
            },
            Asked::Write(n) => self.host.write(n, &mut self.loan.buffer),
            _ => {}
        }
    }

    // What a line asks for, carried out.
    fn carry_out(&mut self, asked: Asked)
        ensures { CarriesOut self.old self.new (carried_out asked (world_of self.old)) }
    {
        self.calls(asked);
        self.loan.lent = self.loan.lent.after(asked);
        self.clock = clock_after(self.clock, asked);
    }

    // A line carried out; of one that cannot be read, that is printed.
    #[tactic(auto, unfolding(crate::specs::Lines::line_of))]
    fn line(&mut self, asked: Option<Asked>)
        ensures { CarriesOut self.old self.new (line_of asked (world_of self.old)) }
    {
        match asked {
            Some(call) => self.carry_out(call),
            None => self.host.unreadable(self.number),
        }
    }

    // The lines of the text up to a place, carried out one after the other.
    pub fn carry_out_lines(&mut self, text: &Text, last: usize)
        ensures { CarriesOut self.old self.new (lines_done text.now last (world_of self.old)) }
    {
        // Stays a `while`: the place moves on by whole lines, whose length is read from the text, so that no range or
        // iterator of the library walks them, and one of our own would be the same loop with a type around it.
        let mut at = 0;
        while at < last.min(text.len()) {
            let end = lines::line_end(text, at);
            let loan = &mut self.loan;
            let asked = replay_script::read_line(
                text,
                at,
                end,
                &mut self.bytes,
                &mut loan.volts,
                &mut loan.temps,
            );
            self.number = counts::next(self.number);
            self.line(asked);
            at = end + 1;
        }
    }
}
