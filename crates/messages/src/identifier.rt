// The 29-bit identifier and its parts (01, "Identifier and message numbers").
ghost use Rattle.std.specs.Prelude.{◌≡◌};
ghost use Rattle.messages.specs.Identifier.{parts_of, number_of, ps_part, identifier_of};

use crate::table::Row;

#[derive(Clone, Copy, Debug, PartialEq, Eq)]
pub struct Identifier {
    pub priority: u8,
    pub reserved: u8,
    pub page: u8,
    pub pf: u8,
    pub ps: u8,
    pub source: u8,
}

// The parts of an identifier.
impl From<u32> for Identifier {
    ghost from_gives = { λ id parts. parts ≡ parts_of id };

    #[tactic(auto, unfolding(crate::specs::Identifier::parts_of))]
    fn from(id: u32) -> Identifier {
        let [source, ps, pf, flags] = id.to_le_bytes();
        Identifier {
            priority: flags / 4 % 8,
            reserved: flags / 2 % 2,
            page: flags % 2,
            pf,
            ps,
            source,
        }
    }
}

// The identifier of the parts, each in its own bits.
impl From<Identifier> for u32 {
    ghost from_gives = { λ parts id. id ≡ number_of parts };

    #[tactic(auto, unfolding(crate::specs::Identifier::number_of))]
    fn from(parts: Identifier) -> u32 {
        (parts.priority % 8) as u32 * 0x400_0000
            + (parts.reserved % 2) as u32 * 0x200_0000
            + (parts.page % 2) as u32 * 0x100_0000
            + parts.pf as u32 * 0x1_0000
            + parts.ps as u32 * 0x100
            + parts.source as u32
    }
}

// From this PF up a message is a broadcast.
pub const FIRST_BROADCAST: u8 = 240;

// PS is the target of a targeted message, and else the row's own.
fn ps_of(row: Row, target: u8) -> u8
    ensures { result ≡ ps_part row target }
{
    if row.pf() < FIRST_BROADCAST {
        target
    } else {
        row.ps()
    }
}

// The identifier of a message that we send.
pub fn identifier_of(row: Row, target: u8, source: u8) -> u32
    ensures { result ≡ identifier_of row target source }
{
    u32::from(Identifier {
        priority: row.priority(),
        reserved: 0,
        page: 0,
        pf: row.pf(),
        ps: ps_of(row, target),
        source,
    })
}
