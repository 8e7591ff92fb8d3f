// The numbers by which the table of bytes tells classes.
#![tactic(auto)]

// What the table has for a byte that is no digit: a number for its class. A digit's entry is its value.
pub const COMMA: u8 = 10;

pub const DASH: u8 = 11;

pub const LINE_END: u8 = 12;

pub const LETTER_P: u8 = 13;

pub const LETTER_T: u8 = 14;

pub const LETTER_I: u8 = 15;

pub const LETTER_O: u8 = 16;

pub const LETTER_H: u8 = 17;

pub const LETTER_S: u8 = 18;

pub const LETTER_E: u8 = 19;

pub const LETTER_C: u8 = 20;

pub const LETTER_B: u8 = 21;

pub const LETTER_A: u8 = 22;

pub const LETTER_G: u8 = 23;

pub const LETTER_R: u8 = 24;

pub const LETTER_K: u8 = 25;

pub const LETTER_J: u8 = 26;

pub const LETTER_W: u8 = 27;

pub const RETURN: u8 = 28;

pub const FOREIGN: u8 = 29;
