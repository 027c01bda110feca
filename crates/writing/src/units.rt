// The units that a text's own pieces are made of.
pub const SPACE: u16 = 32;

pub const COMMA: u16 = 44;

pub const POINT: u16 = 46;

pub const ZERO: u16 = 48;
