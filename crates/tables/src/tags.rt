// The first word of an item.
pub const LITERAL: u16 = 1;

pub const BLANK: u16 = 2;

pub const FILL: u16 = 3;

pub const ZERO_PLACE: u16 = 4;

pub const HASH_PLACE: u16 = 5;

pub const SPACE_PLACE: u16 = 6;

pub const POINT: u16 = 7;

pub const PERCENT: u16 = 8;

pub const GENERAL: u16 = 9;

pub const AT: u16 = 10;

pub const YEAR: u16 = 11;

pub const MONTH: u16 = 12;

pub const DAY: u16 = 13;

pub const HOUR: u16 = 14;

pub const MINUTE: u16 = 15;

pub const SECOND: u16 = 16;

pub const PART: u16 = 17;

pub const ELAPSED_HOURS: u16 = 18;

pub const ELAPSED_MINUTES: u16 = 19;

pub const ELAPSED_SECONDS: u16 = 20;

pub const HALF_DAY: u16 = 21;

pub const EXPONENT_PLUS: u16 = 22;

pub const EXPONENT_MINUS: u16 = 23;

pub const SOLIDUS: u16 = 24;

pub const FIXED: u16 = 25;
