// What a cell's reading is to its table (01, "Readings"): in which unit its figures are, what it is as it is sent, and
// its range. A voltage is a `u16`, sent as it is, and a temperature an `i16`, sent as F + 50.
ghost use Rattle.std.specs.Prelude.{◌≡◌, ℕ, Bool};
ghost use Rattle.units.specs.Units.{hundredth_volts, sent_degrees};
ghost use Rattle.cells.specs.Sent.{as_sent};
ghost use Rattle.cells.specs.Tables.{voltage_ok, temperature_ok};

use crate::sent;
use units::{HundredthVolts, SentDegrees};

// The highest voltage of a cell that is in range.
pub const MOST_VOLTAGE: u16 = 1000;

// The lowest and the highest temperature of a cell that is in range.
pub const LEAST_TEMPERATURE: i16 = -50;

pub const MOST_TEMPERATURE: i16 = 205;

// A unit, in which a figure of a table is. Its maker has a name in the definitions (`of`), which `From` would not give.
pub trait Unit: Copy {
    // So many of it.
    ghost of: { ℕ → Self };

    fn of(n: u16) -> Self
        ensures { result ≡ of n };
}

impl Unit for HundredthVolts {
    ghost of = { hundredth_volts };

    fn of(n: u16) -> HundredthVolts {
        HundredthVolts(n)
    }
}

impl Unit for SentDegrees {
    ghost of = { sent_degrees };

    fn of(n: u16) -> SentDegrees {
        SentDegrees(n)
    }
}

pub trait Reading: Copy {
    type Unit: Unit;

    // The number of its unit as it is sent.
    ghost sent: { Self → ℕ };

    // In its range.
    ghost ok: { Self → Bool };

    fn sent(self) -> u16
        ensures { result ≡ sent self };

    fn in_range(self) -> bool
        ensures { result ≡ ok self };
}

impl Reading for u16 {
    type Unit = HundredthVolts;

    ghost sent = { λ v. v };

    ghost ok = { voltage_ok };

    fn sent(self) -> u16 {
        self
    }

    fn in_range(self) -> bool {
        self <= MOST_VOLTAGE
    }
}

impl Reading for i16 {
    type Unit = SentDegrees;

    ghost sent = { as_sent };

    ghost ok = { temperature_ok };

    fn sent(self) -> u16 {
        sent::as_sent(self).0
    }

    fn in_range(self) -> bool {
        (LEAST_TEMPERATURE..=MOST_TEMPERATURE).contains(&self)
    }
}
