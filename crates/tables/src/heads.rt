// The words of a head by their places in it, and how many they are.
pub const KIND: usize = 0;

pub const COLOUR: usize = 1;

pub const OPERATOR: usize = 2;

pub const NEGATIVE: usize = 3;

pub const WHOLE_LOW: usize = 4;

pub const WHOLE_HIGH: usize = 5;

pub const MILLIONTHS_LOW: usize = 6;

pub const MILLIONTHS_HIGH: usize = 7;

pub const SHIFT: usize = 8;

pub const FLAGS: usize = 9;

pub const DECIMALS: usize = 10;

pub const ITEMS: usize = 11;

pub const WORDS: usize = 12;
