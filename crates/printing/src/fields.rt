// Fields of a record of the work buffer that the search leaves free (specs/Links.antt, specs/Marks.antt).

pub const NEXT_LINE: u32 = 62;

pub const CONSTANT_NUMBER: u32 = 63;
