// A tick (01, "Numbers returned", 14 to 16; "Session by tick"; "Broadcasts and cell answers").
ghost use Rattle.std.specs.Prelude.{◌≡◌, length};
ghost use Rattle.refusals.specs.Tick.{tick_number};
ghost use Rattle.controller.specs.Tick.{ticked, TickIs};

use crate::Controller;
use cells::accepted::Accepted;
use cells::tables::Tables;
use numbers::Refusal;
use readings::Readings;
use session_by_tick::Tick;

impl Controller {
    // A tick that no number refuses: the bytes written.
    fn accepted(&mut self, r: Readings, v: &[u16], t: &[i16], buf: &mut [u8]) -> usize
        requires { tick_number r v.now t.now (length buf.old) ≡ 0 }
        ensures { TickIs self.old r v.now t.now buf.old buf.new (ticked (Ok result) self.new) }
    {
        let x = self.settings;
        let tables = Tables { volts: v, heat: t };
        let c = tables.summarize();
        let ticked = self.session.tick(&Tick {
            settings: x,
            readings: r,
            cells: c,
        });
        let cell = self.queries.answer(x.own, &tables);
        let accepted = Accepted { cells: c };
        let bytes = ticking::lay(x, self.beat, r, accepted, &ticked.frames, cell, buf);
        self.session = ticked.session;
        self.beat = self.beat.next();
        bytes
    }

    // ENTRY POINT. Any readings, any tables, any buffer, any controller: the bytes written, or the refusal, and neither
    // the controller nor the buffer changed. The tables stay two slices: `TickIs` is of tables that differ in length too,
    // which 14 is for.
    pub fn tick(
        &mut self,
        r: Readings,
        v: &[u16],
        t: &[i16],
        buf: &mut [u8],
    ) -> Result<usize, Refusal>
        ensures { TickIs self.old r v.now t.now buf.old buf.new (ticked result self.new) }
    {
        refusals::tick::check(r, v, t, buf.len())?;
        Ok(self.accepted(r, v, t, buf))
    }
}
