// The flags of a head, as they are added up.
pub const GROUPING: u16 = 1;

pub const NO_MINUS: u16 = 2;

pub const TWELVE_HOUR: u16 = 4;

// The greatest sum of flags.
pub const ALL: u16 = 7;
