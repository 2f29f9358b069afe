// The numbers returned (01, "Numbers returned"): a refusal a line of the table, and the number that it carries. A call
// that is taken carries 0. This crate may not know any call, nor when a refusal is given.
#![tactic(auto)]

ghost use Rattle.std.specs.Prelude.{◌≡◌};
ghost use Rattle.numbers.specs.Numbers.{number_of};

// Why a call is refused, in the table's order.
#[derive(Clone, Copy, Debug, PartialEq, Eq)]
pub enum Refusal {
    // 1: the layout of a settings record is not the paper's.
    Layout,
    // 2: a value of the settings is outside its range.
    SettingOutOfRange,
    // 3: identifier 2^29 or more, or over 8 bytes.
    NotCan,
    // 4: reserved or data page set.
    FlagSet,
    // 5: a broadcast, or the target is not our address.
    NotForUs,
    // 6: the source is ours, 254 or 255.
    BadSource,
    // 7: the PF is not one of the nine.
    NotOneOfTheNine,
    // 8: shorter than its least length.
    TooShort,
    // 9: in Idle the source is not in the list, else it is not the session's station.
    NotTheStation,
    // 10: content not allowed.
    ContentNotAllowed,
    // 11: not taken in this state.
    NotInThisState,
    // 12: the same source and kind is already waiting.
    AlreadyWaiting,
    // 13: four are waiting.
    FourWaiting,
    // 14: the tables differ in length, or hold none or too many.
    Tables,
    // 15: a reading or a cell is outside its range.
    ReadingOutOfRange,
    // 16: the buffer has no room for the most frames of a tick.
    TickBuffer,
    // 17: the buffer is shorter than the settings record.
    RecordBuffer,
}

impl Refusal {
    // Its number in the table.
    pub fn number(self) -> u8
        ensures { result ≡ number_of self }
    {
        match self {
            Refusal::Layout => 1,
            Refusal::SettingOutOfRange => 2,
            Refusal::NotCan => 3,
            Refusal::FlagSet => 4,
            Refusal::NotForUs => 5,
            Refusal::BadSource => 6,
            Refusal::NotOneOfTheNine => 7,
            Refusal::TooShort => 8,
            Refusal::NotTheStation => 9,
            Refusal::ContentNotAllowed => 10,
            Refusal::NotInThisState => 11,
            Refusal::AlreadyWaiting => 12,
            Refusal::FourWaiting => 13,
            Refusal::Tables => 14,
            Refusal::ReadingOutOfRange => 15,
            Refusal::TickBuffer => 16,
            Refusal::RecordBuffer => 17,
        }
    }
}
