// Kinds of nodes (specs/Layout.antt): V, F applied, P applied, Y, &, |, >, E, U. Numbers, since that is what the lent table holds and the
// definitions compare.

pub const VARIABLE: u32 = 0;

pub const APPLICATION: u32 = 1;

pub const ATOM: u32 = 2;

pub const TRUE: u32 = 3;

pub const AND: u32 = 4;

pub const OR: u32 = 5;

pub const IMPLIES: u32 = 6;

pub const EXISTS: u32 = 7;

pub const FORALL: u32 = 8;
