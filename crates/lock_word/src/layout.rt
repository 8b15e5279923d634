// Where the fields of a lock word begin and how many values they have. specs/Layout.antt states the same numbers for the contracts.
pub const RESERVED_BIT: u32 = 2;

pub const COUNT_UNIT: u8 = 4;

pub const NUMBER_UNIT: u32 = 256;

pub const FIRST_BEYOND: u32 = 8388608;

pub const COUNTS: u8 = 64;
// the greatest count
pub const COUNT_LIMIT: u8 = 63;

pub const NUMBERS: u32 = 32768;
