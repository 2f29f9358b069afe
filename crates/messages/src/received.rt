// The nine messages that we take, told by their PF (01, "Identifier and message numbers", and number 7).
ghost use Rattle.std.specs.Prelude.{◌≡◌};
ghost use Rattle.messages.specs.Received.{row_of, least_length, charge_row, query_row, RecognizesAs};

use crate::table;
use crate::table::Row;
use numbers::Refusal;

// Station to us.
#[derive(Clone, Copy, Debug, PartialEq, Eq)]
pub enum Charge {
    Cim,
    Cvm,
    Cmp,
    Crm,
    Ccs,
    Cst,
    Cem,
}

// Any node to us: the cells that it asks for, voltages by ACV, temperatures by ACT.
#[derive(Clone, Copy, Debug, PartialEq, Eq)]
pub enum Kind {
    Voltages,
    Temperatures,
}

#[derive(Clone, Copy, Debug, PartialEq, Eq)]
pub enum Message {
    Charge(Charge),
    Query(Kind),
}

// The message that a PF is. The number of the answer is 7 where it is not one of the nine.
impl TryFrom<u8> for Message {
    type Error = Refusal;

    ghost try_from_gives = { RecognizesAs };

    fn try_from(pf: u8) -> Result<Message, Refusal> {
        match pf {
            0x26 => Ok(Message::Charge(Charge::Cim)),
            0x01 => Ok(Message::Charge(Charge::Cvm)),
            0x08 => Ok(Message::Charge(Charge::Cmp)),
            0x0a => Ok(Message::Charge(Charge::Crm)),
            0x12 => Ok(Message::Charge(Charge::Ccs)),
            0x16 => Ok(Message::Charge(Charge::Cst)),
            0x1f => Ok(Message::Charge(Charge::Cem)),
            0x1b => Ok(Message::Query(Kind::Voltages)),
            0x1c => Ok(Message::Query(Kind::Temperatures)),
            _ => Err(Refusal::NotOneOfTheNine),
        }
    }
}

impl Charge {
    // Its row of the table.
    fn row(self) -> Row
        ensures { result ≡ charge_row self }
    {
        match self {
            Charge::Cim => table::CIM,
            Charge::Cvm => table::CVM,
            Charge::Cmp => table::CMP,
            Charge::Crm => table::CRM,
            Charge::Ccs => table::CCS,
            Charge::Cst => table::CST,
            Charge::Cem => table::CEM,
        }
    }
}

impl Kind {
    fn row(self) -> Row
        ensures { result ≡ query_row self }
    {
        match self {
            Kind::Voltages => table::ACV,
            Kind::Temperatures => table::ACT,
        }
    }
}

impl Message {
    // Its row of the table.
    pub fn row(self) -> Row
        ensures { result ≡ row_of self }
    {
        match self {
            Message::Charge(c) => c.row(),
            Message::Query(k) => k.row(),
        }
    }

    // The least length of its data.
    pub fn least_length(self) -> u8
        ensures { result ≡ least_length self }
    {
        self.row().length()
    }
}
