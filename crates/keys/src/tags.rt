// The numbers of the tags, for those who look items up: numbers, as rows have them and the C interface takes them.
pub const UNTAGGED: u32 = 0;

pub const DATA: u32 = 1;

pub const UNIT: u32 = 2;

pub const MATRIX: u32 = 3;

pub const SCALE: u32 = 4;

pub const TIMESTAMP_US: u32 = 5;

pub const NAME: u32 = 6;

pub const TEMPERATURE: u32 = 7;

pub const COUNT: u32 = 8;

pub const ORIENTATION_IN: u32 = 9;

pub const ORIENTATION_OUT: u32 = 10;
