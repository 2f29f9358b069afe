// The pack's readings that a tick lends: their ranges (01, "Readings", number 15), whether charge is wanted, and how a
// current is compared and sent. This crate may not know cells, frames or sessions.
#![tactic(auto)]

ghost use Rattle.std.specs.Prelude.{◌≡◌};
ghost use Rattle.readings.specs.Readings.{readings_in_range, wanted_of, above_of, raw_of, bits_of};

use units::{RawAmps, TenthAmps, TenthVolts};

// Two bytes of bits: those that stand now, and those that have been latched.
#[derive(Clone, Copy)]
pub struct Marks {
    pub active: u8,
    pub latched: u8,
}

// Status bytes one and two, SOC, current (0.1 A, positive into the pack), pack voltage, capacity, and the four fault
// bytes.
#[derive(Clone, Copy)]
pub struct Readings {
    pub one: u8,
    pub two: u8,
    pub soc: u8,
    pub current: i16,
    pub pack: TenthVolts,
    pub capacity: u16,
    pub faults: Marks,
    pub warnings: Marks,
}

// The current's range, -2000.0 to 400.0 A.
const LEAST_CURRENT: i16 = -20000;

const MOST_CURRENT: i16 = 4000;

impl Readings {
    #[tactic(auto, unfolding(crate::specs::Readings::readings_in_range, crate::specs::Readings::current_ok))]
    pub fn in_range(self) -> bool
        ensures { result ≡ readings_in_range self }
    {
        let current = (LEAST_CURRENT..=MOST_CURRENT).contains(&self.current);
        (self.one <= 127) & ((self.soc <= 100) & current)
    }

    // 80 hex set and 20 hex clear in status byte two, and none of bits 8 to 2 of the active faults.
    #[tactic(auto, unfolding(crate::specs::Readings::wanted_of))]
    pub fn wanted(self) -> bool
        ensures { result ≡ wanted_of self }
    {
        let two = self.two;
        let active = self.faults.active;
        (two & 0x80 == 0x80) & ((two & 0x20 == 0) & (active & 0xfe == 0))
    }

    // The current is above a maximum. Both are taken to 32 bits, where each has room.
    #[tactic(auto, unfolding(crate::specs::Readings::above_of))]
    pub fn current_above(self, maximum: TenthAmps) -> bool
        ensures { result ≡ above_of self.current maximum }
    {
        i32::from(maximum.0) < i32::from(self.current)
    }

    // The current as the word of a frame: 4000 minus it, with its sign. (One above 4000 is outside its range, and then
    // this is how far above.)
    #[tactic(auto, unfolding(crate::specs::Readings::raw_of))]
    pub fn raw_current(self) -> RawAmps
        ensures { result.0 ≡ raw_of self.current }
    {
        RawAmps(self.current.abs_diff(4000))
    }

    // The current's bits as PS has them, as two's complement.
    #[tactic(auto, unfolding(crate::specs::Readings::bits_of))]
    pub fn current_bits(self) -> u16
        ensures { result ≡ bits_of self.current }
    {
        self.current.cast_unsigned()
    }
}
