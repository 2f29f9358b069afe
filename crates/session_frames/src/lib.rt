// The ten frames to the station, laid out byte by byte (01, "Session by tick", "Layouts"). Every frame has 8 data
// bytes, zero after its fields. This crate may not know when a frame is due.
#![tactic(auto)]

ghost use Rattle.std.specs.Prelude.{◌≡◌, ◌++◌};
ghost use Rattle.buffers.specs.Words.{word_bytes};
ghost use Rattle.frames.specs.Frame.{frame_of};
ghost use Rattle.session_frames.specs.Layouts.{mark_of, hold_voltage, eim_of, evm_of, ecp_of, erm_of, ecr_frame, ecr_of, ecs_of, esm_of, est_frame, edm_of, eem_of};

use cells::{Cells, sent};
use frames::Frame;
use messages::table;
use messages::table::Row;
use readings::Readings;
use session_states::phases::Phase;
use settings::Settings;
use units::{HundredthVolts, RawAmps, TenthVolts};

// Whose frames go to which station: the settings in use, with our own address, and the station's.
#[derive(Clone, Copy)]
pub struct ToStation {
    pub settings: Settings,
    pub station: u8,
}

fn mark(on: bool) -> u8
    ensures { result ≡ mark_of on }
{
    if on { 0xaa } else { 0x00 }
}

// Four words, each with its low byte first.
fn four_words(a: u16, b: u16, c: u16, d: u16) -> [u8; Frame::DATA]
    ensures { result ≡ word_bytes a ++ word_bytes b ++ word_bytes c ++ word_bytes d }
{
    let [a0, a1] = a.to_le_bytes();
    let [b0, b1] = b.to_le_bytes();
    let [c0, c1] = c.to_le_bytes();
    let [d0, d1] = d.to_le_bytes();
    [a0, a1, b0, b1, c0, c1, d0, d1]
}

// 3.55 V a cell, in Hold.
const HOLD_CELL: HundredthVolts = HundredthVolts(355);

// 0 A as a raw current.
const NO_CURRENT: RawAmps = RawAmps(4000);

impl ToStation {
    // A message of the table, from us to the station.
    fn frame(&self, row: Row, bytes: [u8; Frame::DATA]) -> Frame
        ensures { result ≡ frame_of row self.now.station self.now.settings.own bytes }
    {
        Frame::new(row, self.station, self.settings.own, bytes)
    }

    // EIM: maximum pack voltage, AA or 00.
    #[tactic(auto, unfolding(crate::specs::Layouts::eim_of))]
    pub fn eim(&self, on: bool) -> Frame
        ensures { result ≡ eim_of self.now.settings self.now.station on }
    {
        let [v0, v1] = self.settings.limits.pack.0.to_le_bytes();
        self.frame(table::EIM, [v0, v1, mark(on), 0, 0, 0, 0, 0])
    }

    // EVM: 45 50 53, 00 or AA, capacity, pack voltage.
    #[tactic(auto, unfolding(crate::specs::Layouts::evm_of))]
    pub fn evm(&self, r: Readings, verified: bool) -> Frame
        ensures { result ≡ evm_of self.now.settings self.now.station r verified }
    {
        let [a0, a1] = r.capacity.to_le_bytes();
        let [v0, v1] = r.pack.0.to_le_bytes();
        self.frame(
            table::EVM,
            [0x45, 0x50, 0x53, mark(verified), a0, a1, v0, v1],
        )
    }

    // ECP: settings 2, 3, 4, 5.
    #[tactic(auto, unfolding(crate::specs::Layouts::ecp_of))]
    pub fn ecp(&self) -> Frame
        ensures { result ≡ ecp_of self.now.settings self.now.station }
    {
        let m = self.settings.limits;
        let bytes = four_words(m.cell.0, m.current.0, m.pack.0, m.temperature.0);
        self.frame(table::ECP, bytes)
    }

    // ERM: AA or 00.
    #[tactic(auto, unfolding(crate::specs::Layouts::erm_of))]
    pub fn erm(&self, accepted: bool) -> Frame
        ensures { result ≡ erm_of self.now.settings self.now.station accepted }
    {
        self.frame(table::ERM, [mark(accepted), 0, 0, 0, 0, 0, 0, 0])
    }

    // The voltage of Hold: so much a cell in series, up to the maximum pack voltage.
    #[tactic(auto, unfolding(crate::specs::Layouts::hold_voltage))]
    fn hold_voltage(&self, c: Cells) -> TenthVolts
        ensures { result ≡ hold_voltage self.now.settings c }
    {
        HOLD_CELL.in_series(c.volts.count, self.settings.limits.pack)
    }

    // ECR: voltage, raw current, mode.
    #[tactic(auto, unfolding(crate::specs::Layouts::ecr_frame))]
    fn ecr_frame(&self, volts: TenthVolts, raw: RawAmps, mode: u8) -> Frame
        ensures { result ≡ ecr_frame self.now.settings self.now.station volts.0 raw.0 mode }
    {
        let [v0, v1] = volts.0.to_le_bytes();
        let [i0, i1] = raw.0.to_le_bytes();
        self.frame(table::ECR, [v0, v1, i0, i1, mode, 0, 0, 0])
    }

    #[tactic(auto, unfolding(crate::specs::Layouts::ecr_of))]
    pub fn ecr(&self, c: Cells, p: Phase) -> Frame
        ensures { result ≡ ecr_of self.now.settings self.now.station c p }
    {
        match p {
            Phase::Drive { request, .. } => self.ecr_frame(TenthVolts(0), request.raw(), 0x02),
            Phase::Rest { .. } => self.ecr_frame(TenthVolts(0), NO_CURRENT, 0x02),
            Phase::Hold { .. } => self.ecr_frame(self.hold_voltage(c), NO_CURRENT, 0x01),
        }
    }

    // ECS: pack voltage, raw current, highest cell voltage, SOC.
    #[tactic(auto, unfolding(crate::specs::Layouts::ecs_of))]
    pub fn ecs(&self, r: Readings, c: Cells) -> Frame
        ensures { result ≡ ecs_of self.now.settings self.now.station r c }
    {
        let [v0, v1] = r.pack.0.to_le_bytes();
        let [i0, i1] = r.raw_current().0.to_le_bytes();
        let [h0, h1] = c.volts.highest.value.0.to_le_bytes();
        self.frame(table::ECS, [v0, v1, i0, i1, h0, h1, r.soc, 0])
    }

    // ESM: highest voltage index, highest temperature and index, lowest and index, 01.
    #[tactic(auto, unfolding(crate::specs::Layouts::esm_of))]
    pub fn esm(&self, c: Cells) -> Frame
        ensures { result ≡ esm_of self.now.settings self.now.station c }
    {
        let a = sent::index_byte(c.volts.highest.index);
        let b = sent::temperature_byte(c.heat.highest.value);
        let d = sent::index_byte(c.heat.highest.index);
        let e = sent::temperature_byte(c.heat.lowest.value);
        let f = sent::index_byte(c.heat.lowest.index);
        self.frame(table::ESM, [a, b, d, e, f, 0x01, 0, 0])
    }

    // EST: its two fixed bytes, then AA if acknowledged, else 00.
    #[tactic(auto, unfolding(crate::specs::Layouts::est_frame))]
    pub fn est(&self, first: u8, second: u8, acknowledged: bool) -> Frame
        ensures { result ≡ est_frame self.now.settings self.now.station first second acknowledged }
    {
        self.frame(
            table::EST,
            [first, second, mark(acknowledged), 0, 0, 0, 0, 0],
        )
    }

    // EDM: SOC, lowest and highest cell voltage, lowest and highest temperature.
    #[tactic(auto, unfolding(crate::specs::Layouts::edm_of))]
    pub fn edm(&self, r: Readings, c: Cells) -> Frame
        ensures { result ≡ edm_of self.now.settings self.now.station r c }
    {
        let [a0, a1] = c.volts.lowest.value.0.to_le_bytes();
        let [b0, b1] = c.volts.highest.value.0.to_le_bytes();
        let d = sent::temperature_byte(c.heat.lowest.value);
        let e = sent::temperature_byte(c.heat.highest.value);
        self.frame(table::EDM, [r.soc, a0, a1, b0, b1, d, e, 0])
    }

    // EEM: 10 00 00.
    #[tactic(auto, unfolding(crate::specs::Layouts::eem_of))]
    pub fn eem(&self) -> Frame
        ensures { result ≡ eem_of self.now.settings self.now.station }
    {
        self.frame(table::EEM, [0x10, 0x00, 0x00, 0, 0, 0, 0, 0])
    }
}
