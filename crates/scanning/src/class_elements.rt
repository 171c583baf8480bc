// Elements of classes: the first name, the first application, their number, and the most steps to a root (specs/Classes.antt).

pub const FIRST_NAME: u32 = 16;

pub const FIRST_APPLICATION: u32 = 2048;

pub const COUNT: usize = 4096;

pub const ROOT_STEPS: u32 = 1032;
