// The numbers that document 01 fixes (specs/Limits.antt).

pub const MAX_NUMBER: u32 = 65535;

pub const MAX_NAME: usize = 16;

pub const MAX_ARITY: u32 = 4;

pub const VARIABLE_NAMES: u32 = 8;

pub const MAX_TERM_SIZE: u32 = 1024;

pub const MAX_MEMBERS: u32 = 64;

pub const MAX_SYMBOLS: u32 = 256;

pub const MAX_NODES: u32 = 1024;

pub const MAX_CLAUSES: u32 = 128;

pub const MAX_SHEET_BYTES: usize = 16384;

pub const TABLE_NUMBERS: usize = 8192;

pub const MAX_BUDGET: u32 = 50000;

pub const NUMBERS_PER_UNIT: usize = 64;

pub const MAX_TEXT_BYTES: u32 = 65535;

pub const MAX_PROOFS: u32 = 64;
