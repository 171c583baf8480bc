// Modes: the act that is due, or the verdict (specs/Records.antt).

pub const TAKE: u32 = 0;

pub const TRY: u32 = 1;

pub const COMPARE: u32 = 2;

pub const CHECK: u32 = 3;

pub const PROVED: u32 = 4;

pub const NO: u32 = 5;

// A failure that the loop over acts has yet to settle: a mode of the code alone, which no definition has.
pub const FAILED: u32 = 6;
