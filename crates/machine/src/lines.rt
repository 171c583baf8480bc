// Lines of the path (specs/Records.antt). Numbers: they lie in lent memory, in the records of the path and of choice points.

pub const TRUE: u32 = 0;

pub const AND: u32 = 1;

pub const LEFT: u32 = 2;

pub const RIGHT: u32 = 3;

pub const ASSUME: u32 = 4;

pub const SOME: u32 = 5;

pub const ALL: u32 = 6;

pub const CLAUSE: u32 = 7;
