// Where the table keeps what (specs/Layout.antt).

// The numbers of a symbol and of a node, and where the nodes and the clauses begin.
pub const SYMBOL_NUMBERS: usize = 3;

pub const NODE_NUMBERS: usize = 7;

pub const FIRST_NODE: usize = 768;

pub const FIRST_CLAUSE: usize = 7936;

// Where the order in force is (request W-207), and its numbers in the lent table: the default order, and that of `O latest`.
pub const ORDER: usize = 8064;

pub const DEFAULT_ORDER: u32 = 0;

pub const FORMER_ORDER: u32 = 1;

// Fields of a symbol: where its name starts, its name's word, its arity with its sort.
pub const NAME_START: usize = 0;

pub const NAME_WORD: usize = 1;

pub const ARITY: usize = 2;

// Fields of a node: its kind with its number of children, its label, its children, what it is. A U node has one child, and keeps in the
// fields of the others what the U nodes from it on come to.
pub const HEAD: usize = 0;

pub const LABEL: usize = 1;

pub const FIRST_CHILD: usize = 2;

pub const SECOND_CHILD: usize = 3;

pub const THIRD_CHILD: usize = 4;

pub const FOURTH_CHILD: usize = 5;

pub const INFO: usize = 6;

// What a fingerprint adds to the word of a name: the length is below it.
pub const FINGERPRINT_UNIT: u32 = 32;

// What a child adds to the head of a node; what a goal, a member and a symbol of a term add to its info.
pub const CHILD_UNIT: u32 = 16;

pub const GOAL_UNIT: u32 = 256;

pub const MEMBER_UNIT: u32 = 512;

pub const SIZE_UNIT: u32 = 65536;
