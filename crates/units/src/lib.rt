// Units, each a type of its own: a pack limit does not meet a cell limit, nor a temperature a voltage, without a
// conversion that says so (01, "What the box does"). Two values of one unit are compared as their numbers are. This
// crate may not know messages, settings or states.
#![tactic(auto)]

ghost use Rattle.std.specs.Prelude.{◌≡◌};
ghost use Rattle.units.specs.Units.{in_series, lesser_amps, halved_amps, raw_amps};

// A pack voltage: 0.1 V.
#[derive(Clone, Copy, PartialEq, Eq, PartialOrd, Ord)]
pub struct TenthVolts(pub u16);

// A cell voltage: 0.01 V.
#[derive(Clone, Copy, PartialEq, Eq, PartialOrd, Ord)]
pub struct HundredthVolts(pub u16);

// A current of 0 or more, a limit, a request or an offer: 0.1 A.
#[derive(Clone, Copy, PartialEq, Eq, PartialOrd, Ord)]
pub struct TenthAmps(pub u16);

// A current as the 16-bit word of a frame, where 4000 is 0 A. What another word means is told by its message's rule, so
// two words have no order of their own.
#[derive(Clone, Copy, PartialEq, Eq)]
pub struct RawAmps(pub u16);

// A cell temperature as it is sent: degrees F + 50.
#[derive(Clone, Copy, PartialEq, Eq, PartialOrd, Ord)]
pub struct SentDegrees(pub u16);

impl HundredthVolts {
    // So many cells of this voltage in series, in tenths of a volt rounded down, and not above `most`: the one place
    // where hundredths become tenths.
    pub fn in_series(self, cells: u16, most: TenthVolts) -> TenthVolts
        ensures { result ≡ in_series self cells most }
    {
        let tenths = self.0 as u32 * cells as u32 / 10;
        u16::try_from(tenths).map_or(most, |t| TenthVolts(t).min(most))
    }
}

impl TenthAmps {
    // The smaller of this and the other.
    #[tactic(auto, using(crate::proofs::Laws::min_is_lesser))]
    pub fn lesser(self, other: TenthAmps) -> TenthAmps
        ensures { result ≡ lesser_amps self other }
    {
        self.min(other)
    }

    // Halved, rounding down.
    pub fn halved(self) -> TenthAmps
        ensures { result ≡ halved_amps self }
    {
        TenthAmps(self.0 / 2)
    }

    // As the word of a frame that we send: 4000 minus it.
    pub fn raw(self) -> RawAmps
        ensures { result ≡ raw_amps self }
    {
        RawAmps(4000u16.saturating_sub(self.0))
    }
}
