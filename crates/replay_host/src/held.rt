// What is held from call to call; and a settings record, a frame or a write: called, and what it was answered and
// changed printed.
ghost use Rattle.std.specs.Prelude.{◌≡◌};
ghost use Rattle.numbers.specs.Numbers.{answered};
ghost use Rattle.replay_host.specs.Host.{keeps_of, Comes, standing_held, standing_done, settings_done, start_keeps};
ghost use Rattle.replay_host.specs.Host.{frame_done, write_done, write_buffer, absent_done, unreadable_done};

use controller::{Controller, setup};
use numbers::Refusal;
use replay_calls::calls;
use replay_print::answers;
use replay_print::out::Out;
use replay_print::standings::Standing;
use std::io::Write;

// The buffer of which each tick and write is lent the first bytes.
pub type Buffer = replay_print::Buffer;

// The controller in use, once a settings record was accepted, the ticks that it has accepted, and the output.
#[derive(Clone, Copy, Drop)]
pub struct Host<W> {
    pub held: Option<Controller>,
    pub accepted: u64,
    pub out: Out<W>,
}

// The number that an answer carries.
pub(crate) fn number<T>(answer: &Result<T, Refusal>) -> u8
    ensures { result ≡ answered answer.now }
{
    match answer {
        Ok(_) => 0,
        Err(refusal) => refusal.number(),
    }
}

impl<W: Write> Host<W> {
    #[tactic(auto, unfolding(crate::specs::Host::start_keeps))]
    pub fn start(out: Out<W>) -> Host<W>
        ensures { (keeps_of result ≡ start_keeps) × (result.out ≡ out) }
    {
        Host {
            held: None,
            accepted: 0,
            out,
        }
    }

    // The standing of the controller's session; Idle before there is one.
    #[tactic(auto, unfolding(crate::specs::Host::standing_held, crate::specs::Host::standing_in))]
    pub(crate) fn standing(&self) -> Standing
        ensures { result ≡ standing_held self.now.held }
    {
        match &self.held {
            None => Standing::Idle,
            Some(c) => Standing::of(c.session.state, c.session.station),
        }
    }

    // The standing, where a call has changed it; it is printed last.
    pub(crate) fn changed(&mut self, before: Standing)
        ensures { Comes self.old self.new (standing_done before (keeps_of self.old)) }
    {
        self.standing().changed(&mut self.out, before);
    }

    // A line that cannot be read, by its number.
    #[tactic(auto, unfolding(crate::specs::Host::unreadable_done))]
    pub fn unreadable(&mut self, number: u64)
        ensures { Comes self.old self.new (unreadable_done number (keeps_of self.old)) }
    {
        answers::unreadable(&mut self.out, number);
    }

    // That there is no controller, where there is none.
    #[tactic(auto, unfolding(crate::specs::Host::absent_done, crate::specs::Host::absent_for))]
    pub fn absent(&mut self)
        ensures { Comes self.old self.new (absent_done (keeps_of self.old)) }
    {
        if self.held.is_none() {
            answers::no_controller(&mut self.out);
        }
    }

    // A settings record: a fresh controller, or the one in use stays.
    #[tactic(auto, unfolding(crate::specs::Host::settings_done, crate::specs::Host::start_done))]
    pub fn settings(&mut self, bytes: &[u8])
        ensures { Comes self.old self.new (settings_done bytes.now (keeps_of self.old)) }
    {
        let before = self.standing();
        match setup::read(bytes) {
            Ok(c) => {
                self.held = Some(c);
                self.accepted = 0;
                answers::settings(&mut self.out, 0);
                self.changed(before);
            }
            Err(refusal) => answers::settings(&mut self.out, refusal.number()),
        }
    }

    // A frame with these data.
    pub fn frame(&mut self, id: u32, bytes: &[u8])
        ensures { Comes self.old self.new (frame_done id bytes.now (keeps_of self.old)) }
    {
        let before = self.standing();
        let Some(c) = &mut self.held else {
            return answers::no_controller(&mut self.out);
        };
        let answer = c.frame(id, bytes);
        answers::frame(&mut self.out, number(&answer));
        self.changed(before);
    }

    // The settings in use written into the first n bytes.
    pub fn write(&mut self, n: usize, buf: &mut Buffer)
        ensures comes { Comes self.old self.new (write_done n buf.old (keeps_of self.old)) }
        ensures buf_after { buf.new ≡ write_buffer n buf.old self.old.held }
    {
        let Some(c) = &self.held else {
            return answers::no_controller(&mut self.out);
        };
        match calls::write(c, buf, n) {
            Ok(bytes) => answers::write(&mut self.out, 0, bytes, buf),
            Err(refusal) => answers::write(&mut self.out, refusal.number(), 0, buf),
        }
    }
}
