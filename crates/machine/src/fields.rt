// Fields of a record of the work buffer (specs/Fields.antt). Numbers: they are positions in lent memory.

// Bindings and levels of so many variables; a binding is field 0 or later.
pub const CELLS: u32 = 9;

pub const LEVELS: u32 = 9;

// A trail entry.
pub const ENTRY_LOWERED: u32 = 18;

pub const ENTRY_LEVEL: u32 = 19;

pub const ENTRY_BOUND: u32 = 20;

pub const ENTRY_BEFORE: u32 = 21;

// The constant that the act makes, and the frame.
pub const CONSTANT_LEVEL: u32 = 22;

pub const FRAME: usize = 23;

// A goal that waits, an assumption, a line of the path.
pub const GOAL_NODE: u32 = 31;

pub const GOAL_FRAME: u32 = 32;

pub const GOAL_PROGRAM: u32 = 33;

pub const GOAL_LEVEL: u32 = 34;

pub const GOAL_NEXT: u32 = 35;

pub const ASSUMPTION_NODE: u32 = 36;

pub const ASSUMPTION_FRAME: u32 = 37;

pub const ASSUMPTION_NEXT: u32 = 38;

// An assumption's record is no member's use and no choice point, so these share numbers with the place and the count of a use and with
// the variables before an act.
pub const ASSUMPTION_DEPTH: u32 = 41;

pub const ASSUMPTION_JUMP: u32 = 42;

pub const ASSUMPTION_OLDEST: u32 = 43;

pub const PATH_BEFORE: u32 = 39;

pub const PATH_LINE: u32 = 40;

pub const USE_PLACE: u32 = 41;

pub const USE_COUNT: u32 = 42;

pub const VARIABLES: u32 = 43;

// A choice point.
pub const CHOICE_TRAIL: u32 = 44;

pub const CHOICE_BEFORE: u32 = 45;

pub const CHOICE_GOALS: u32 = 46;

pub const CHOICE_PATH: u32 = 47;

pub const CHOICE_LINE: u32 = 48;

pub const CHOICE_NODE: u32 = 49;

pub const CHOICE_FRAME: u32 = 50;

pub const CHOICE_PROGRAM: u32 = 51;

pub const CHOICE_LEVEL: u32 = 52;

pub const CHOICE_HYPOTHESIS: u32 = 53;

pub const CHOICE_CLAUSE: u32 = 54;

pub const CHOICE_MEMBER: u32 = 55;

pub const CHOICE_PLACE: u32 = 56;

// Pairs that wait.
pub const GOAL_SIDE_NODE: u32 = 57;

pub const GOAL_SIDE_FRAME: u32 = 58;

pub const CLAUSE_SIDE_NODE: u32 = 59;

pub const CLAUSE_SIDE_FRAME: u32 = 60;

pub const PAIRS_AFTER: u32 = 61;

// Nodes that wait in a range check.
pub const WAITING_NODE: u32 = 57;

pub const WAITING_FRAME: u32 = 58;

pub const WAITING_AFTER: u32 = 59;
