// The values that the definitions and the code share. There is nothing to run here.
#![tactic(auto)]

// What a byte is: a digit, a comma, a dash, a line end, a letter in use, a carriage return or foreign.
#[derive(Clone, Copy, PartialEq, Eq)]
pub enum Class {
    Digit,
    Comma,
    Dash,
    LineEnd,
    LetterP,
    LetterT,
    LetterI,
    LetterO,
    LetterH,
    LetterS,
    LetterE,
    LetterC,
    LetterB,
    LetterA,
    LetterG,
    LetterR,
    LetterK,
    LetterJ,
    LetterW,
    Return,
    Foreign,
}

// A byte's class, and its value as a digit: 0 where it is none.
#[derive(Clone, Copy)]
pub struct ByteClass {
    pub class: Class,
    pub digit: u8,
}

// A field of a line, as it is written.
#[derive(Clone, Copy)]
pub enum Field {
    Number(usize),
    Dash,
}

// The kinds of arcs: `I`, `O`, `H` and `R`.
#[derive(Clone, Copy)]
pub enum ArcKind {
    Input,
    Output,
    Inhibitor,
    Read,
}

// The kinds of marks: `B`, `A` and `R`.
#[derive(Clone, Copy)]
pub enum MarkKind {
    Before,
    After,
    Read,
}

// The greatest numbers of events, conditions and marks of a record.
#[derive(Clone, Copy)]
pub struct Limits {
    pub events: usize,
    pub conditions: usize,
    pub marks: usize,
}

// What a call returns: the number and the spot of a refusal, 0 where it is accepted, and the operation's values, 0 where it is
// refused.
#[repr(C)]
#[derive(Clone, Copy)]
pub struct Numbers {
    pub number: u64,
    pub spot: u64,
    pub a: u64,
    pub b: u64,
    pub c: u64,
}

// The three energies, in µJ: what the capacitor can give, what the events draw, and what is left.
#[derive(Clone, Copy)]
pub struct Energies {
    pub usable: f64,
    pub draw: f64,
    pub left: f64,
}

// What a call for energies returns: the number and the spot of a refusal, 0 where it is accepted, and the three energies in
// µJ, 0 where it is refused.
#[repr(C)]
#[derive(Clone, Copy)]
pub struct EnergyNumbers {
    pub number: u64,
    pub spot: u64,
    pub usable: f64,
    pub draw: f64,
    pub left: f64,
}
