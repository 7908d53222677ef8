// The known keys by name: four characters as one number, the first weighing most.
pub const AALP: u32 = 0x41414c50;

pub const ACCL: u32 = 0x4143434c;

pub const CORI: u32 = 0x434f5249;

pub const DVNM: u32 = 0x44564e4d;

pub const FASC: u32 = 0x46415343;

pub const GPS5: u32 = 0x47505335;

pub const GRAV: u32 = 0x47524156;

pub const GYRO: u32 = 0x4759524f;

pub const IORI: u32 = 0x494f5249;

pub const ISOE: u32 = 0x49534f45;

pub const MAGN: u32 = 0x4d41474e;

pub const MTRX: u32 = 0x4d545258;

pub const MWET: u32 = 0x4d574554;

pub const ORIN: u32 = 0x4f52494e;

pub const ORIO: u32 = 0x4f52494f;

pub const SCAL: u32 = 0x5343414c;

pub const SHUT: u32 = 0x53485554;

pub const SIUN: u32 = 0x5349554e;

pub const STMP: u32 = 0x53544d50;

pub const STNM: u32 = 0x53544e4d;

pub const TMPC: u32 = 0x544d5043;

pub const TSMP: u32 = 0x54534d50;

pub const UNIF: u32 = 0x554e4946;

pub const UNIT: u32 = 0x554e4954;

pub const WBAL: u32 = 0x5742414c;

pub const WNDM: u32 = 0x574e444d;

pub const WRGB: u32 = 0x57524742;
