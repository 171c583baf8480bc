// Fields of a record of the work buffer (specs/Fields.antt): a frame of so many numbers, a sequent left, a hypothesis.

pub const FRAME_NUMBERS: u32 = 16;

pub const SEQUENT_NODE: u32 = 16;

pub const SEQUENT_FRAME: u32 = 17;

pub const SEQUENT_HYPOTHESES: u32 = 18;

pub const SEQUENT_LEVEL: u32 = 19;

pub const SEQUENT_NEXT: u32 = 20;

pub const HYPOTHESIS_NODE: u32 = 21;

pub const HYPOTHESIS_FRAME: u32 = 22;

pub const HYPOTHESIS_NEXT: u32 = 23;

// Request W-207: how many members stand before its own in the default order.
pub const HYPOTHESIS_START: u32 = 24;

// Its links: how many hypotheses there are from it on, a jump to an older one, and how many members the jump passes.
pub const HYPOTHESIS_DEPTH: u32 = 25;

pub const HYPOTHESIS_JUMP: u32 = 26;

pub const HYPOTHESIS_PASSED: u32 = 27;
