// Stages: what is due (specs/Sequents.antt).

pub const OPENING: u32 = 0;

pub const BINDING: u32 = 1;

pub const SEQUENT: u32 = 2;

pub const DONE: u32 = 3;

pub const BROKEN: u32 = 4;
