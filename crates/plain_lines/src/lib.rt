// Plain lines, read in one walk of the text: a letter, then numbers or dashes, and the ending, byte 10 or 13 and 10. A
// line that is not of the form asked for is left where it stands, for the readers of `lines` and `fields`.
#![tactic(auto)]

ghost use Rattle.std.specs.Prelude.{◌≡◌, ◌≤◌};
ghost use Rattle.lines.specs.Lines.{Ahead};
ghost use Rattle.plain_lines.specs.Plain.{ReadsField, Lettered, Listed, AloneAt, OneAt, TwoAt, ThreeAt};

use byte_classes::Table;
use byte_entries::{COMMA, DASH};
use digits::number_from;
use line_forms::Slot;
use lines::past_ending;

// A number or a dash, where it ends, and the entry of the byte that stands there; that of a foreign byte where there is
// neither.
#[derive(Clone, Copy)]
pub struct FieldFrom {
    pub field: Slot,
    pub end: usize,
    pub stop: u8,
}

// The number or the dash that starts at a position.
fn field_from(table: &Table, most: usize, s: &[u8], at: usize) -> FieldFrom
    requires { (1 ≤ most) × (most ≤ 18) × Ahead s.now at }
    ensures { ReadsField most s.now at result }
{
    if table.entry_of(s[at]) == DASH {
        let end = at + 1;
        return FieldFrom {
            field: Slot::Dash,
            end,
            stop: table.entry_of(s[end]),
        };
    }
    let n = number_from(table, most, s, at);
    FieldFrom {
        field: Slot::Number(n.value),
        end: n.end,
        stop: n.stop,
    }
}

// The next line starts here if a letter stands alone on the line that starts at a position; else the position.
pub fn alone_at(table: &Table, s: &[u8], at: usize, behind: u8) -> usize
    requires { Lettered s.now at behind }
    ensures { AloneAt s.now at result }
{
    let end = at + 1;
    let next = past_ending(table, s, behind, end);
    if next == end {
        return at;
    }
    next
}

// The number of a line with a letter and a number, and where the next line starts; below the same for other forms. A
// line of another form leaves `next` at the position.
// A type for each form: their callers take each field by its name, and only the last two of three may be dashes.
#[derive(Clone, Copy)]
pub struct One {
    pub a: usize,
    pub next: usize,
}

pub fn one_at(table: &Table, most: usize, s: &[u8], at: usize) -> One
    requires { (1 ≤ most) × (most ≤ 18) × Listed s.now at }
    ensures { OneAt most s.now at result }
{
    let x = number_from(table, most, s, at + 2);
    let next = past_ending(table, s, x.stop, x.end);
    if next == x.end {
        return One { a: 0, next: at };
    }
    One { a: x.value, next }
}

#[derive(Clone, Copy)]
pub struct Two {
    pub a: usize,
    pub b: usize,
    pub next: usize,
}

pub fn two_at(table: &Table, most: usize, s: &[u8], at: usize) -> Two
    requires { (1 ≤ most) × (most ≤ 18) × Listed s.now at }
    ensures { TwoAt most s.now at result }
{
    let none = Two {
        a: 0,
        b: 0,
        next: at,
    };
    let x = number_from(table, most, s, at + 2);
    if x.stop != COMMA {
        return none;
    }
    let y = number_from(table, most, s, x.end + 1);
    let next = past_ending(table, s, y.stop, y.end);
    if next == y.end {
        return none;
    }
    Two {
        a: x.value,
        b: y.value,
        next,
    }
}

#[derive(Clone, Copy)]
pub struct Three {
    pub a: usize,
    pub b: Slot,
    pub c: Slot,
    pub next: usize,
}

pub fn three_at(table: &Table, most: usize, s: &[u8], at: usize) -> Three
    requires { (1 ≤ most) × (most ≤ 18) × Listed s.now at }
    ensures { ThreeAt most s.now at result }
{
    let none = Three {
        a: 0,
        b: Slot::Absent,
        c: Slot::Absent,
        next: at,
    };
    let x = number_from(table, most, s, at + 2);
    if x.stop != COMMA {
        return none;
    }
    let y = field_from(table, most, s, x.end + 1);
    if y.stop != COMMA {
        return none;
    }
    let z = field_from(table, most, s, y.end + 1);
    let next = past_ending(table, s, z.stop, z.end);
    if next == z.end {
        return none;
    }
    let b = y.field;
    let c = z.field;
    Three {
        a: x.value,
        b,
        c,
        next,
    }
}
