// Tags of words, which are their remainders by the number of tags (specs/Words.antt). Numbers: words lie in lent memory.

pub const COUNT: u32 = 4;

pub const VARIABLE: u32 = 1;

pub const CONSTANT: u32 = 2;

pub const CLOSURE: u32 = 3;
