// A received frame (01, "Numbers returned", 3 to 13, in numeric order).
ghost use Rattle.std.specs.Prelude.{◌≡◌};
ghost use Rattle.controller.specs.Frame.{answered_with, charge_to, query_to, FrameIs};

use crate::Controller;
use messages::identifier::Identifier;
use messages::received::{Charge, Kind, Message};
use numbers::Refusal;
use refusals::frame;

impl Controller {
    // A charge message: 9, then its content, 10, then the session, 11.
    #[tactic(auto, unfolding(crate::specs::Frame::charge_to, crate::specs::Frame::may_charge, crate::specs::Frame::content_taken, crate::specs::Frame::session_moved))]
    fn charge(&mut self, source: u8, k: Charge, bytes: &[u8]) -> Result<(), Refusal>
        ensures { answered_with result self.new ≡ charge_to self.old source k bytes.now }
    {
        let s = self.session;
        if !frame::may_speak(s.state, s.station, self.settings.stations, source) {
            return Err(Refusal::NotTheStation);
        }
        let m = charge_messages::read_content(k, bytes)?;
        let taken = s.message(self.settings, source, m);
        self.session = taken.session;
        taken.answer
    }

    // A query: 12 and 13.
    #[tactic(auto, unfolding(crate::specs::Frame::query_to, crate::specs::Frame::queries_moved))]
    fn query(&mut self, source: u8, kind: Kind) -> Result<(), Refusal>
        ensures { answered_with result self.new ≡ query_to self.old source kind }
    {
        self.queries.ask(source, kind)
    }

    // ENTRY POINT. Any identifier, any data of any length, any controller.
    #[tactic(auto, unfolding(crate::specs::Frame::frame_to, crate::specs::Frame::message_to))]
    pub fn frame(&mut self, id: u32, bytes: &[u8]) -> Result<(), Refusal>
        ensures { FrameIs self.old id bytes.now (answered_with result self.new) }
    {
        let message = frame::message_in(self.settings.own, id, bytes)?;
        let source = Identifier::from(id).source;
        match message {
            Message::Charge(k) => self.charge(source, k, bytes),
            Message::Query(kind) => self.query(source, kind),
        }
    }
}
