// Lines of a fixed form, as rows: a letter, and so many numbers or dashes.
#![tactic(auto)]

ghost use Rattle.std.specs.Prelude.{◌≡◌};
ghost use Rattle.line_forms.specs.Rows.{a_number, a_number_or_dash, absent, value_of, is_alone, is_one, is_two, is_triple, is_three};

use spec::Class;

// What stands in a field of a line. Wrong is neither a number nor a dash; Absent stands beyond the last field.
#[derive(Clone, Copy)]
pub enum Slot {
    Number(usize),
    Dash,
    Wrong,
    Absent,
}

// A line's letter and its first four fields; no line of a fixed form has more than three.
#[derive(Clone, Copy)]
pub struct Row {
    pub letter: Class,
    pub first: Slot,
    pub second: Slot,
    pub third: Slot,
    pub fourth: Slot,
}

pub fn a_number(f: Slot) -> bool
    ensures { result ≡ a_number f }
{
    matches!(f, Slot::Number(_))
}

fn a_number_or_dash(f: Slot) -> bool
    ensures { result ≡ a_number_or_dash f }
{
    matches!(f, Slot::Number(_) | Slot::Dash)
}

fn absent(f: Slot) -> bool
    ensures { result ≡ absent f }
{
    matches!(f, Slot::Absent)
}

// The number in a slot, and 0 where there is none.
pub fn number_in(f: Slot) -> usize
    ensures { result ≡ value_of f }
{
    match f {
        Slot::Number(n) => n,
        _ => 0,
    }
}

// A function for each form, as the definitions spell it: a row's fields have names, so that a count of them as a parameter
// reads no plainer.

// The letter alone.
#[tactic(auto, using(byte_classes::proofs::Tabulated::equal_alike), unfolding(crate::specs::Rows::is_alone))]
pub fn is_alone(k: Class, r: Row) -> bool
    ensures { result ≡ is_alone k r }
{
    r.letter == k && absent(r.first)
}

// The letter and a number.
#[tactic(auto, using(byte_classes::proofs::Tabulated::equal_alike), unfolding(crate::specs::Rows::is_one))]
pub fn is_one(k: Class, r: Row) -> bool
    ensures { result ≡ is_one k r }
{
    r.letter == k && a_number(r.first) && absent(r.second)
}

// The letter and two numbers.
#[tactic(auto, using(byte_classes::proofs::Tabulated::equal_alike), unfolding(crate::specs::Rows::is_two))]
pub fn is_two(k: Class, r: Row) -> bool
    ensures { result ≡ is_two k r }
{
    r.letter == k && a_number(r.first) && a_number(r.second) && absent(r.third)
}

// The letter, a number, and two that can be dashes.
#[tactic(auto, using(byte_classes::proofs::Tabulated::equal_alike), unfolding(crate::specs::Rows::is_three))]
pub fn is_three(k: Class, r: Row) -> bool
    ensures { result ≡ is_three k r }
{
    r.letter == k
        && a_number(r.first)
        && a_number_or_dash(r.second)
        && a_number_or_dash(r.third)
        && absent(r.fourth)
}

// The letter and three numbers.
#[tactic(auto, using(crate::proofs::Ties::triple_by_three))]
pub fn is_triple(k: Class, r: Row) -> bool
    ensures { result ≡ is_triple k r }
{
    is_three(k, r) && a_number(r.second) && a_number(r.third)
}
