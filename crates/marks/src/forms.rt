// The forms of tokens, by their names.
pub const LITERAL: u16 = 0;

pub const BARE: u16 = 1;

pub const BLANK: u16 = 2;

pub const FILL: u16 = 3;

pub const ZERO_PLACE: u16 = 4;

pub const HASH_PLACE: u16 = 5;

pub const SPACE_PLACE: u16 = 6;

pub const POINT: u16 = 7;

pub const COMMA: u16 = 8;

pub const PERCENT: u16 = 9;

pub const AT: u16 = 10;

pub const SEMICOLON: u16 = 11;

pub const GENERAL: u16 = 12;

pub const SHORT_HALF: u16 = 13;

pub const LONG_HALF: u16 = 14;

pub const YEARS: u16 = 15;

pub const MONTHS: u16 = 16;

pub const DAYS: u16 = 17;

pub const HOURS: u16 = 18;

pub const SECONDS: u16 = 19;

pub const ELAPSED_HOURS: u16 = 20;

pub const ELAPSED_MINUTES: u16 = 21;

pub const ELAPSED_SECONDS: u16 = 22;

pub const COLOUR: u16 = 23;

pub const CONDITION: u16 = 24;

pub const EXPONENT_PLUS: u16 = 25;

pub const EXPONENT_MINUS: u16 = 26;

// A place with a solidus directly behind it, and one with a solidus and a fixed number, which is the argument.
pub const ZERO_OVER: u16 = 27;

pub const HASH_OVER: u16 = 28;

pub const SPACE_OVER: u16 = 29;

pub const ZERO_OVER_FIXED: u16 = 30;

pub const HASH_OVER_FIXED: u16 = 31;

pub const SPACE_OVER_FIXED: u16 = 32;
