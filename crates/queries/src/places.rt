// The four places and the list that they stand for. A place past the last query is blank, so that the list says all
// that there is.
ghost use Rattle.std.specs.Prelude.{◌≡◌, cond, [], ◌∷◌, ◌++◌, ◌-◌, ◌+◌, ◌<◌, take, drop};
ghost use Rattle.queries.specs.Waiting.{most_waiting, no_query, waiting, queries_of};
ghost use Rattle.queries.specs.Answering.{next_group};

use crate::{Queries, Query};
use messages::received::Kind;

// The most queries that wait at a time.
pub const MOST: u8 = 4;

// A blank place.
const BLANK: Query = Query {
    source: 0,
    kind: Kind::Voltages,
    group: 0,
};

// A place: the query where one is waiting there, else blank.
fn place(waits: bool, q: Query) -> Query
    ensures { result ≡ cond waits q no_query }
{
    if waits { q } else { BLANK }
}

// The first `count` of four queries.
#[tactic(auto, unfolding(crate::specs::Waiting::queries_of))]
fn first_of(count: u8, a: Query, b: Query, c: Query, d: Query) -> Queries
    ensures { result ≡ queries_of (take count (a ∷ b ∷ c ∷ d ∷ [])) }
{
    Queries {
        count: count.min(MOST),
        first: place(0 < count, a),
        second: place(1 < count, b),
        third: place(2 < count, c),
        fourth: place(3 < count, d),
    }
}

impl Queries {
    // Nothing waiting.
    pub fn none() -> Queries
        ensures { result ≡ queries_of [] }
    {
        first_of(0, BLANK, BLANK, BLANK, BLANK)
    }

    // One more, behind all others.
    pub fn added(self, q: Query) -> Queries
        requires { self.count < most_waiting }
        ensures { result ≡ queries_of (waiting self ++ (q ∷ [])) }
    {
        let n = self.count;
        let a = self.first;
        let b = self.second;
        let c = self.third;
        match n {
            0 => first_of(1, q, q, q, q),
            1 => first_of(2, a, q, q, q),
            2 => first_of(3, a, b, q, q),
            _ => first_of(MOST, a, b, c, q),
        }
    }

    // Without the oldest; the others move up.
    pub fn left(self) -> Queries
        ensures { result ≡ queries_of (drop 1 (waiting self)) }
    {
        let n = self.count.min(MOST);
        let d = self.fourth;
        if 0 < n {
            first_of(n - 1, self.second, self.third, d, d)
        } else {
            Queries::none()
        }
    }

    // With the oldest at its next group.
    pub fn moved(self) -> Queries
        requires { (0 < self.count) × (self.first.group < 255) }
        ensures { result ≡ queries_of (next_group self.first ∷ drop 1 (waiting self)) }
    {
        let next = Query {
            group: self.first.group + 1,
            ..self.first
        };
        first_of(self.count, next, self.second, self.third, self.fourth)
    }
}
