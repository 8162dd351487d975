//! The statuses that the program ends with.

pub const DONE: u8 = 0;

pub const REFUSED: u8 = 1;

pub const USAGE: u8 = 2;

pub const CANNOT_READ: u8 = 3;

pub const CANNOT_WRITE: u8 = 4;

pub const OUT_OF_MEMORY: u8 = 5;

pub const UNSETTLED: u8 = 6;
