// What each byte of a text is, by a table of 256 entries.
#![tactic(auto)]

ghost use Rattle.std.specs.Prelude.{◌≡◌};
ghost use Rattle.byte_entries.specs.Entries.{class_by};

use byte_entries::{
    COMMA, DASH, LETTER_A, LETTER_B, LETTER_C, LETTER_E, LETTER_G, LETTER_H, LETTER_I, LETTER_J,
    LETTER_K, LETTER_O, LETTER_P, LETTER_R, LETTER_S, LETTER_T, LETTER_W, LINE_END, RETURN,
};
pub use lookup::{Table, byte_table};
use spec::Class;
pub use table::LINE_END_BYTE;

mod lookup;
mod table;

// The class that an entry stands for.
#[tactic(auto, unfolding(byte_entries::specs::Entries::class_by))]
pub fn class_of(entry: u8) -> Class
    ensures { result ≡ class_by entry }
{
    match entry {
        0..=9 => Class::Digit,
        COMMA => Class::Comma,
        DASH => Class::Dash,
        LINE_END => Class::LineEnd,
        LETTER_P => Class::LetterP,
        LETTER_T => Class::LetterT,
        LETTER_I => Class::LetterI,
        LETTER_O => Class::LetterO,
        LETTER_H => Class::LetterH,
        LETTER_S => Class::LetterS,
        LETTER_E => Class::LetterE,
        LETTER_C => Class::LetterC,
        LETTER_B => Class::LetterB,
        LETTER_A => Class::LetterA,
        LETTER_G => Class::LetterG,
        LETTER_R => Class::LetterR,
        LETTER_K => Class::LetterK,
        LETTER_J => Class::LetterJ,
        LETTER_W => Class::LetterW,
        RETURN => Class::Return,
        _ => Class::Foreign,
    }
}
