// A session's standing: its state's name, and its station.
ghost use Rattle.std.specs.Prelude.{◌≡◌};
ghost use Rattle.replay_print.specs.Out.{Prints};
ghost use Rattle.replay_print.specs.Standings.{name_text, standing_of, standing_numbered, same_standing};
ghost use Rattle.replay_print.specs.Standings.{standing_text, standing_line, changed_text};

use crate::out::Out;
use session_states::states::State;
use std::io::Write;

// The names of the states that have a station.
#[derive(Clone, Copy, PartialEq, Eq)]
pub enum Name {
    Offered,
    Unverified,
    Parameters,
    Ready,
    Charging,
    Stopping,
    // By how much its number is past that of the state Error: 0 for the state. No state has a number past it; all are
    // printed alike, and no two are the same.
    Error(u8),
}

// A session's state and station, as they are printed. Stays an enum and no option: Idle is a state with a name that is
// printed too, and not the lack of one.
#[derive(Clone, Copy, PartialEq, Eq)]
pub enum Standing {
    Idle,
    In(Name, u8),
}

impl Name {
    fn text(self) -> &'static [u8]
        ensures { result.now ≡ name_text self }
    {
        match self {
            Name::Offered => b"Offered",
            Name::Unverified => b"Unverified",
            Name::Parameters => b"Parameters",
            Name::Ready => b"Ready",
            Name::Charging => b"Charging",
            Name::Stopping => b"Stopping",
            Name::Error(_) => b"Error",
        }
    }
}

impl Standing {
    #[tactic(auto, unfolding(crate::specs::Standings::standing_of))]
    pub fn of(state: State, station: u8) -> Standing
        ensures { result ≡ standing_of state station }
    {
        let name = match state {
            State::Idle => return Standing::Idle,
            State::Offered => Name::Offered,
            State::Unverified => Name::Unverified,
            State::Parameters => Name::Parameters,
            State::Ready { .. } => Name::Ready,
            State::Charging(_) => Name::Charging,
            State::Stopping { .. } => Name::Stopping,
            State::Error => Name::Error(0),
        };
        Standing::In(name, station)
    }

    // The standing by the number of a state, of which any number may be asked: Idle is 0, and has no station.
    #[tactic(auto, unfolding(crate::specs::Standings::standing_numbered))]
    pub fn numbered(state: u8, station: u8) -> Standing
        ensures { result ≡ standing_numbered state station }
    {
        match state {
            0 => Standing::Idle,
            1 => Standing::In(Name::Offered, station),
            2 => Standing::In(Name::Unverified, station),
            3 => Standing::In(Name::Parameters, station),
            4 => Standing::In(Name::Ready, station),
            5 => Standing::In(Name::Charging, station),
            6 => Standing::In(Name::Stopping, station),
            _ => Standing::In(Name::Error(state - 7), station),
        }
    }

    // Whether it need not be printed after another: the derived equality, under the definition's name.
    #[tactic(auto, unfolding(crate::specs::Standings::same_standing))]
    fn same(self, other: Standing) -> bool
        ensures { result ≡ same_standing self other }
    {
        self == other
    }

    // The state's name and, unless it is Idle, the station.
    #[tactic(auto, unfolding(crate::specs::Standings::standing_text))]
    fn print<W: Write>(self, o: &mut Out<W>)
        ensures { Prints o.old o.new (standing_text self) }
    {
        match self {
            Standing::Idle => o.text(b"Idle"),
            Standing::In(name, station) => {
                o.text(name.text());
                o.put(b' ');
                o.byte(station);
            }
        }
    }

    fn line<W: Write>(self, o: &mut Out<W>)
        ensures { Prints o.old o.new (standing_line self) }
    {
        o.text(b"state ");
        self.print(o);
        o.put(b'\n');
    }

    // The line of a standing, where it is not what it was before.
    #[tactic(auto, unfolding(crate::specs::Standings::changed_text, crate::specs::Out::laid_of))]
    pub fn changed<W: Write>(self, o: &mut Out<W>, before: Standing)
        ensures { Prints o.old o.new (changed_text self before) }
    {
        if !self.same(before) {
            self.line(o);
        }
    }
}
