// The one table of message rows (01, "Identifier and message numbers"), and each message's row, read from it, by its name.
ghost use Rattle.std.specs.Prelude.{◌≡◌};
ghost use Rattle.messages.specs.Table.{pf_of, priority_of, length_of, broadcast_ps, row_at};

// A message: PF, priority, length (of a received one the least), and the PS of a broadcast (0 where PS is the target).
// One line a message is what makes the table one to read, so a row has places and not names, and stays no plainer with
// fields, which take six lines; the methods name them.
#[derive(Clone, Copy, Debug, PartialEq, Eq)]
pub struct Row(pub u8, pub u8, pub u8, pub u8);

impl Row {
    pub fn pf(self) -> u8
        ensures { result ≡ pf_of self }
    {
        self.0
    }

    pub fn priority(self) -> u8
        ensures { result ≡ priority_of self }
    {
        self.1
    }

    // The length, of a received message the least.
    pub fn length(self) -> u8
        ensures { result ≡ length_of self }
    {
        self.2
    }

    // The PS of a broadcast.
    pub fn ps(self) -> u8
        ensures { result ≡ broadcast_ps self }
    {
        self.3
    }
}

// How many rows the table has.
pub const COUNT: usize = 26;

// The rows, a line a message.
pub const ROWS: [Row; COUNT] = [
    // Station to us: PF and least length; the priority is ignored, and PS is our address.
    Row(0x26, 0, 3, 0), // CIM
    Row(0x01, 0, 1, 0), // CVM
    Row(0x08, 0, 8, 0), // CMP
    Row(0x0a, 0, 1, 0), // CRM
    Row(0x12, 0, 5, 0), // CCS
    Row(0x16, 0, 3, 0), // CST
    Row(0x1f, 0, 3, 0), // CEM
    // Any node to us.
    Row(0x1b, 0, 8, 0), // ACV
    Row(0x1c, 0, 8, 0), // ACT
    // Us to the station: PF and priority, with 8 data bytes as every frame that we send has; PS is the station.
    Row(0x27, 6, 8, 0), // EIM
    Row(0x02, 7, 8, 0), // EVM
    Row(0x06, 7, 8, 0), // ECP
    Row(0x09, 4, 8, 0), // ERM
    Row(0x10, 6, 8, 0), // ECR
    Row(0x11, 7, 8, 0), // ECS
    Row(0x13, 6, 8, 0), // ESM
    Row(0x15, 4, 8, 0), // EST
    Row(0x1a, 6, 8, 0), // EDM
    Row(0x1e, 2, 8, 0), // EEM
    // Broadcasts: PF FA, priority 7, and PS.
    Row(0xfa, 7, 8, 0x20), // PS
    Row(0xfa, 7, 8, 0x21), // CVS
    Row(0xfa, 7, 8, 0x22), // CTS
    Row(0xfa, 7, 8, 0x23), // FWS
    Row(0xfa, 7, 8, 0x27), // EC
    // The first groups of the two kinds of cell answer.
    Row(0x31, 7, 8, 0), // VOLTAGES
    Row(0x81, 7, 8, 0), // TEMPERATURES
];

// The row of each message by its name, read from the table at its place. (A constant can be no entry of another one yet,
// so the four numbers are read one by one.)
pub const CIM: Row = Row(ROWS[0].0, ROWS[0].1, ROWS[0].2, ROWS[0].3);

pub const CVM: Row = Row(ROWS[1].0, ROWS[1].1, ROWS[1].2, ROWS[1].3);

pub const CMP: Row = Row(ROWS[2].0, ROWS[2].1, ROWS[2].2, ROWS[2].3);

pub const CRM: Row = Row(ROWS[3].0, ROWS[3].1, ROWS[3].2, ROWS[3].3);

pub const CCS: Row = Row(ROWS[4].0, ROWS[4].1, ROWS[4].2, ROWS[4].3);

pub const CST: Row = Row(ROWS[5].0, ROWS[5].1, ROWS[5].2, ROWS[5].3);

pub const CEM: Row = Row(ROWS[6].0, ROWS[6].1, ROWS[6].2, ROWS[6].3);

pub const ACV: Row = Row(ROWS[7].0, ROWS[7].1, ROWS[7].2, ROWS[7].3);

pub const ACT: Row = Row(ROWS[8].0, ROWS[8].1, ROWS[8].2, ROWS[8].3);

pub const EIM: Row = Row(ROWS[9].0, ROWS[9].1, ROWS[9].2, ROWS[9].3);

pub const EVM: Row = Row(ROWS[10].0, ROWS[10].1, ROWS[10].2, ROWS[10].3);

pub const ECP: Row = Row(ROWS[11].0, ROWS[11].1, ROWS[11].2, ROWS[11].3);

pub const ERM: Row = Row(ROWS[12].0, ROWS[12].1, ROWS[12].2, ROWS[12].3);

pub const ECR: Row = Row(ROWS[13].0, ROWS[13].1, ROWS[13].2, ROWS[13].3);

pub const ECS: Row = Row(ROWS[14].0, ROWS[14].1, ROWS[14].2, ROWS[14].3);

pub const ESM: Row = Row(ROWS[15].0, ROWS[15].1, ROWS[15].2, ROWS[15].3);

pub const EST: Row = Row(ROWS[16].0, ROWS[16].1, ROWS[16].2, ROWS[16].3);

pub const EDM: Row = Row(ROWS[17].0, ROWS[17].1, ROWS[17].2, ROWS[17].3);

pub const EEM: Row = Row(ROWS[18].0, ROWS[18].1, ROWS[18].2, ROWS[18].3);

pub const PS: Row = Row(ROWS[19].0, ROWS[19].1, ROWS[19].2, ROWS[19].3);

pub const CVS: Row = Row(ROWS[20].0, ROWS[20].1, ROWS[20].2, ROWS[20].3);

pub const CTS: Row = Row(ROWS[21].0, ROWS[21].1, ROWS[21].2, ROWS[21].3);

pub const FWS: Row = Row(ROWS[22].0, ROWS[22].1, ROWS[22].2, ROWS[22].3);

pub const EC: Row = Row(ROWS[23].0, ROWS[23].1, ROWS[23].2, ROWS[23].3);

pub const VOLTAGES: Row = Row(ROWS[24].0, ROWS[24].1, ROWS[24].2, ROWS[24].3);

pub const TEMPERATURES: Row = Row(ROWS[25].0, ROWS[25].1, ROWS[25].2, ROWS[25].3);

// The row at a place: the table is the paper's, row by row. Past it stands a row of zeros, which no message has.
pub fn row_at(place: usize) -> Row
    ensures { result ≡ row_at place }
{
    ROWS.get(place).copied().unwrap_or(Row(0, 0, 0, 0))
}
