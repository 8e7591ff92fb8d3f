// The reader of energy texts: the hold-up capacitor and what an event of each transition draws, or a refusal.
#![tactic(auto)]

ghost use Rattle.std.specs.Prelude.{◌≡◌, ◌≤◌, ◌<◌, length};
ghost use Rattle.lines.specs.Lines.{EndedTo};
ghost use Rattle.energy_reader.specs.Reads.{pulse_of, load_of, figures_of, row_draw, row_ratings, Draws, Rated};
ghost use Rattle.energy_reader.specs.Reads.{ReadsRow, ReadsDraw, ReadsCapacitor, ReadsEnergy};

use byte_classes::{Table, byte_table};
use byte_entries::{LETTER_J, LETTER_W};
use fields::row_of;
use hold_up::{Capacitor, DRAWS, Draw, capacitor_of, load, pulse};
use line_forms::{Row, Slot, is_one, is_triple, is_two, number_in};
use lines::{Cursor, ended_to, line_at, open_at, opens_with};
use plain_lines::{one_at, two_at};
use spec::Class;

// Why an energy text is refused: a line that is malformed, has the wrong letter or a number out of range; or too many
// or too few lines.
#[derive(Clone, Copy, Debug, PartialEq, Eq)]
pub enum EnergyRefusal {
    WrongLine(usize),
    LineCount,
}

// The capacitor, and the draws of the transitions.
#[derive(Drop)]
pub struct EnergyText {
    pub capacitor: Capacitor,
    pub draws: [Draw; DRAWS],
}

// ---- what a line says

// A number has at most so many digits.
const DIGITS: usize = 7;

// The greatest capacitance, energy, power and time, and the greatest voltage.
const MOST: usize = 1000000;

const MOST_VOLTAGE: usize = 60000;

fn pulse_in(energy: usize) -> Option<Draw>
    ensures { Draws result (pulse_of energy) }
{
    if energy <= MOST {
        return Some(pulse(energy));
    }
    None
}

fn load_in(power: usize, time: usize) -> Option<Draw>
    ensures { Draws result (load_of power time) }
{
    if (power <= MOST) & (time <= MOST) {
        return Some(load(power, time));
    }
    None
}

fn capacitor_in(capacitance: usize, full: usize, cutoff: usize) -> Option<Capacitor>
    ensures { Rated result (figures_of capacitance full cutoff) }
{
    if (1 <= capacitance) & (capacitance <= MOST) & (full <= MOST_VOLTAGE) & (cutoff <= full) {
        return Some(capacitor_of(capacitance, full, cutoff));
    }
    None
}

// The draw that a line says, by its row, if it is a transition's.
fn draw_row(w: Row) -> Option<Draw>
    ensures { Draws result (row_draw w) }
{
    if is_one(Class::LetterJ, w) {
        return pulse_in(number_in(w.first));
    }
    if is_two(Class::LetterW, w) {
        return load_in(number_in(w.first), number_in(w.second));
    }
    None
}

// The capacitor that a line says, by its row, if it is a capacitor's: no dash stands for a voltage.
fn capacitor_row(w: Row) -> Option<Capacitor>
    ensures { Rated result (row_ratings w) }
{
    if is_triple(Class::LetterK, w) {
        return capacitor_in(number_in(w.first), number_in(w.second), number_in(w.third));
    }
    None
}

// ---- the line at a position

// The row of a line, and where the next one starts.
#[derive(Clone, Copy)]
pub struct RowAt {
    pub row: Row,
    pub next: usize,
}

// The row of the line at a position, whatever it is. A line that is not ended is of no form, and its row has no letter.
fn row_at(table: &Table, text: &[u8], at: usize) -> RowAt
    requires { at < length text.now }
    ensures { ReadsRow text.now at result }
{
    let line = line_at(table, text, at);
    let next = line.next;
    if !line.ended {
        let row = Row {
            letter: Class::Foreign,
            first: Slot::Absent,
            second: Slot::Absent,
            third: Slot::Absent,
            fourth: Slot::Absent,
        };
        return RowAt { row, next };
    }
    let end = line.end;
    let row = row_of(table, DIGITS, &text[at..end]);
    RowAt { row, next }
}

// What the first line says, and where the next one starts.
#[derive(Clone, Copy)]
pub struct CapacitorAt {
    pub capacitor: Option<Capacitor>,
    pub next: usize,
}

// A text has one capacitor's line, so that it is read like a line that is not plain.
fn capacitor_at(table: &Table, text: &[u8]) -> CapacitorAt
    requires { 0 < length text.now }
    ensures { ReadsCapacitor text.now result }
{
    let line = row_at(table, text, 0);
    let row = line.row;
    let capacitor = capacitor_row(row);
    CapacitorAt {
        capacitor,
        next: line.next,
    }
}

// What a transition's line says, and where the next one starts.
#[derive(Clone, Copy)]
pub struct DrawAt {
    pub draw: Option<Draw>,
    pub next: usize,
}

// The draw that the line at a cursor says. A plain line is read in one walk; any other goes to the readers of lines and
// fields, and so does every malformed one.
fn draw_at(table: &Table, text: &[u8], c: Cursor) -> DrawAt
    requires { (c.at < length text.now) × EndedTo text.now c.ended }
    ensures { ReadsDraw text.now c.at result }
{
    let at = c.at;
    let open = open_at(table, text, c);
    if opens_with(LETTER_J, open) {
        let f = one_at(table, DIGITS, text, at);
        if at < f.next {
            let draw = pulse_in(f.a);
            return DrawAt { draw, next: f.next };
        }
    }
    if opens_with(LETTER_W, open) {
        let f = two_at(table, DIGITS, text, at);
        if at < f.next {
            let draw = load_in(f.a, f.b);
            return DrawAt { draw, next: f.next };
        }
    }
    let line = row_at(table, text, at);
    let row = line.row;
    let draw = draw_row(row);
    DrawAt {
        draw,
        next: line.next,
    }
}

// ---- the text

// Line k says the draw of transition k - 2. Each line is judged, also one beyond the last transition, before the lines
// are counted.
pub fn read_energy(text: &[u8], transitions: usize) -> Result<EnergyText, EnergyRefusal>
    requires { transitions ≤ 32 }
    ensures { ReadsEnergy transitions text.now result }
{
    if text.is_empty() {
        return Err(EnergyRefusal::LineCount);
    }
    let table = byte_table();
    let head = capacitor_at(&table, text);
    let Some(capacitor) = head.capacitor else {
        return Err(EnergyRefusal::WrongLine(1));
    };
    let ended = ended_to(&table, text);
    let mut draws = [Draw::Pulse(0.0); DRAWS];
    let mut k: usize = 2;
    let mut at = head.next;
    // A while: the position moves from line to line, as they are read.
    while at < text.len() {
        let line = draw_at(&table, text, Cursor { line: k, at, ended });
        let Some(draw) = line.draw else {
            return Err(EnergyRefusal::WrongLine(k));
        };
        if k - 2 < DRAWS {
            draws[k - 2] = draw;
        }
        k += 1;
        at = line.next;
    }
    if k != transitions + 2 {
        return Err(EnergyRefusal::LineCount);
    }
    Ok(EnergyText { capacitor, draws })
}
