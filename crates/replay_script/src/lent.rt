// What each tick is lent: the readings, and the first so many of two tables and of a buffer. Lines of the script set
// it.
ghost use Rattle.std.specs.Prelude.{◌≡◌, ◌∷◌, replicate};
ghost use Rattle.replay_script.specs.Lent.{first_readings, first_lent, first_voltages, first_temperatures, lent_after};

use crate::Asked;
use readings::{Marks, Readings};
use units::TenthVolts;

// As many cells as a table has: more than a tick takes, so that it can be seen to refuse.
pub const ENTRIES: usize = 512;

// The cell tables. Stay arrays, how much of each is lent beside them in `Lent`: what is read is promised of the whole
// table, its rest too (`table_of`), which a vector that shows its first so many cannot say.
pub type Voltages = [u16; ENTRIES];

pub type Temperatures = [i16; ENTRIES];

// The readings, and how much of each table and of the buffer.
#[derive(Clone, Copy)]
pub struct Lent {
    pub readings: Readings,
    pub volts: usize,
    pub temps: usize,
    pub room: usize,
}

// `1 192 50 0 3000 1000 0 0 0 0`.
fn first_readings() -> Readings
    ensures { result ≡ first_readings }
{
    Readings {
        one: 1,
        two: 192,
        soc: 50,
        current: 0,
        pack: TenthVolts(3000),
        capacity: 1000,
        faults: Marks {
            active: 0,
            latched: 0,
        },
        warnings: Marks {
            active: 0,
            latched: 0,
        },
    }
}

impl Lent {
    // One voltage, one temperature, a buffer of 117.
    pub fn start() -> Lent
        ensures { result ≡ first_lent }
    {
        Lent {
            readings: first_readings(),
            volts: 1,
            temps: 1,
            room: 117,
        }
    }

    // What ticks are lent after a line: most lines set nothing of it.
    #[tactic(auto, unfolding(crate::specs::Lent::lent_after))]
    pub fn after(self, asked: Asked) -> Lent
        ensures { result ≡ lent_after self asked }
    {
        let mut l = self;
        match asked {
            Asked::Readings(x) => l.readings = x,
            Asked::Voltages(n) => l.volts = n,
            Asked::Temperatures(n) => l.temps = n,
            Asked::Buffer(n) => l.room = n,
            _ => {}
        }
        l
    }
}

// A table of one cell.
fn one_cell<T: Copy>(first: T, zero: T) -> [T; ENTRIES]
    ensures { result ≡ first ∷ replicate 511 zero }
{
    let mut table = [zero; ENTRIES];
    table[0] = first;
    table
}

// The table of voltages at the start: one cell of 3.30 V.
pub fn first_voltages() -> Voltages
    ensures { result ≡ first_voltages }
{
    one_cell(330, 0)
}

// The table of temperatures at the start: one cell of 70 F.
pub fn first_temperatures() -> Temperatures
    ensures { result ≡ first_temperatures }
{
    one_cell(70, 0)
}
