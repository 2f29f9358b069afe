// Settings read and written (01, "What the box does", "Settings record").
ghost use Rattle.settings.specs.Write.{written, Wrote};
ghost use Rattle.std.specs.Prelude.{◌≡◌};
ghost use Rattle.controller.specs.Start.{fresh_of, ReadIs};

use crate::Controller;
use broadcasts::beat::Beat;
use numbers::Refusal;
use queries::Queries;
use session::Session;
use settings::Settings;

// Idle, nothing waiting, next tick 0.
#[tactic(auto, unfolding(crate::specs::Start::fresh_of))]
fn fresh(settings: Settings) -> Controller
    ensures { result ≡ fresh_of settings }
{
    Controller {
        settings,
        session: Session::idle(),
        beat: Beat::first(),
        queries: Queries::none(),
    }
}

// ENTRY POINT. Any bytes: a fresh controller, or the refusal.
#[tactic(auto, unfolding(crate::specs::Start::start_of, crate::specs::Start::start_with))]
pub fn read(bytes: &[u8]) -> Result<Controller, Refusal>
    ensures { ReadIs bytes.now result }
{
    let x = settings::read::read_settings(bytes)?;
    Ok(fresh(x))
}

impl Controller {
    // ENTRY POINT. Any buffer: the settings in use as a record from its start, and the bytes written; or the refusal,
    // and the buffer unchanged.
    pub fn write(&self, buf: &mut [u8]) -> Result<usize, Refusal>
        ensures { Wrote self.now.settings buf.old buf.new (written result) }
    {
        settings::write::write_settings(self.settings, buf)
    }
}
