// The limits of a session (01, "Session by tick"), each by its name; specs/Limits.antt has the same.
use units::TenthAmps;

// The silent ticks after which the next enters Error.
pub const SILENCE: u16 = 200;

// The count at which Stopping and Error end.
pub const CLOSING: u16 = 600;

// The count of Parameters at which the first ECP goes out.
pub const FIRST_ECP: u16 = 5;

// The ticks of a Drive, a Rest and a Hold.
pub const DRIVE: u16 = 18000;

pub const REST: u16 = 6000;

pub const HOLD: u16 = 18000;

// The least request that a Drive asks for.
pub const LEAST_REQUEST: TenthAmps = TenthAmps(60);

// No further Drive starts after so many.
pub const DRIVES: u8 = 6;
