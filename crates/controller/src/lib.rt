// The controller that a railcar's host calls: four entry points, settings read and written, a received frame, a tick.
// It joins the session with the box of broadcasts and queries beside it, neither of which reads the other, and tests
// all that it is handed (01, "Numbers returned"). It may not know anything new: every rule stands in a crate below.
#![tactic(auto)]

use broadcasts::beat::Beat;
use queries::Queries;
use session::Session;
use settings::Settings;

pub mod frame;
pub mod setup;
pub mod tick;

#[derive(Clone, Copy)]
pub struct Controller {
    pub settings: Settings,
    pub session: Session,
    pub beat: Beat,
    pub queries: Queries,
}
