// A query is taken, or refused by its number (01, "Numbers returned", 12 and 13). Source and kind stay two parameters: a
// `Query` has them with the group that is sent next, which one that comes does not have.
ghost use Rattle.std.specs.Prelude.{◌≡◌, take};
ghost use Rattle.std.specs.List.{list_any};
ghost use Rattle.queries.specs.Waiting.{waiting};
ghost use Rattle.queries.specs.Asking.{same_asked, some_asks, queued, queued_of};

use crate::{Queries, Query, places};
use messages::received::Kind;
use numbers::Refusal;

impl Query {
    // It has this source and kind.
    fn asks(self, source: u8, kind: Kind) -> bool
        ensures { result ≡ same_asked source kind self }
    {
        (self.source == source) & (self.kind == kind)
    }
}

// One of the first `count` queries has this source and kind.
fn any_asks(queries: &[Query], count: u8, source: u8, kind: Kind) -> bool
    ensures { result ≡ list_any (same_asked source kind) (take count queries.now) }
{
    queries
        .iter()
        .take(count as usize)
        .any(|q| q.asks(source, kind))
}

impl Queries {
    // The same source and kind is waiting already.
    #[tactic(auto, using(crate::proofs::Lists::some_asks_any), unfolding(crate::specs::Waiting::waiting))]
    fn waits(self, source: u8, kind: Kind) -> bool
        ensures { result ≡ some_asks source kind (waiting self) }
    {
        let four = [self.first, self.second, self.third, self.fourth];
        any_asks(&four, self.count, source, kind)
    }

    // A query from any source.
    pub fn ask(&mut self, source: u8, kind: Kind) -> Result<(), Refusal>
        ensures { queued result self.new ≡ queued_of self.old source kind }
    {
        if self.waits(source, kind) {
            return Err(Refusal::AlreadyWaiting);
        }
        if places::MOST <= self.count {
            return Err(Refusal::FourWaiting);
        }
        *self = self.added(Query {
            source,
            kind,
            group: 0,
        });
        Ok(())
    }
}
