// The kind word of a head.
pub const LITERAL: u16 = 0;

pub const GENERAL: u16 = 1;

pub const NUMBER: u16 = 2;

pub const TEXT: u16 = 3;

pub const DATE_TIME: u16 = 4;

pub const SCIENTIFIC: u16 = 5;

pub const FRACTION: u16 = 6;
