// The record reader: a text becomes a record of bytes and words, or a refusal.
#![tactic(auto)]

ghost use Rattle.std.specs.Prelude.{◌≡◌, ◌≤◌, ◌<◌, length};
ghost use Rattle.lines.specs.Lines.{EndedTo};
ghost use Rattle.record_columns.specs.Layout.{record_bytes};
ghost use Rattle.record_columns.specs.Enters.{Room, Fits, Spans};
ghost use Rattle.record_reader.specs.Reads.{Blank, EntersRow, Takes, kind_in, kind_by};
ghost use Rattle.record_reader.specs.Reads.{ReadsRecord, MarksFit};

use byte_classes::{Table, byte_table};
use byte_entries::{COMMA, LETTER_A, LETTER_B, LETTER_C, LETTER_E, LETTER_R};
use fields::row_of;
use line_forms::{Row, is_one, is_three, is_two, number_in};
use lines::{Cursor, ended_to, line_at, open_at, opens_with};
use plain_lines::{one_at, three_at, two_at};
use record_columns::{Bounds, Counts, RecordRefusal, enter_condition, enter_event, enter_mark};
use spec::{Class, MarkKind};

// The kind of the mark that a row enters, if it has a letter of marks and two numbers.
fn kind_in(w: Row) -> Option<MarkKind>
    ensures { result ≡ kind_in w }
{
    if is_two(Class::LetterB, w) {
        Some(MarkKind::Before)
    } else if is_two(Class::LetterA, w) {
        Some(MarkKind::After)
    } else if is_two(Class::LetterR, w) {
        Some(MarkKind::Read)
    } else {
        None
    }
}

// What a line says is entered.
fn enter_row(
    b: Bounds,
    k: usize,
    w: Row,
    s: Counts,
    rec: &mut [u8],
    marks: &mut [u64],
) -> Result<Counts, RecordRefusal>
    requires { Room b × Fits s rec.old × Spans s marks.old }
    ensures { EntersRow b k w s rec.old marks.old result
        rec.new marks.new }
{
    let x = number_in(w.first);
    if is_one(Class::LetterE, w) {
        return enter_event(b, k, x, s, rec);
    }
    if is_three(Class::LetterC, w) {
        return enter_condition(b, k, x, w.second, w.third, s, rec);
    }
    match kind_in(w) {
        Some(kind) => enter_mark(b, kind, k, x, number_in(w.second), s, marks),
        None => Err(RecordRefusal::Malformed(k)),
    }
}

// The counts after a line that was entered, and where the next one starts.
#[derive(Clone, Copy, Debug, PartialEq, Eq)]
pub struct Took {
    pub counts: Counts,
    pub next: usize,
}

// The kind of mark that a letter stands for, by its entry.
fn kind_of(letter: u8) -> Option<MarkKind>
    ensures { result ≡ kind_by letter }
{
    match letter {
        LETTER_B => Some(MarkKind::Before),
        LETTER_A => Some(MarkKind::After),
        LETTER_R => Some(MarkKind::Read),
        _ => None,
    }
}

// The line at a cursor is entered by the readers of lines and fields, whatever it is.
fn enter_any(
    table: &Table,
    b: Bounds,
    text: &[u8],
    c: Cursor,
    s: Counts,
    rec: &mut [u8],
    marks: &mut [u64],
) -> Result<Took, RecordRefusal>
    requires { (c.at < length text.now) × Room b × Fits s rec.old
        × Spans s marks.old }
    ensures { Takes b text.now c.at c.line s rec.old marks.old result
        rec.new marks.new }
{
    let k = c.line;
    let at = c.at;
    let line = line_at(table, text, at);
    if !line.ended {
        return Err(RecordRefusal::Malformed(k));
    }
    let end = line.end;
    let counts = enter_row(b, k, row_of(table, 4, &text[at..end]), s, rec, marks)?;
    Ok(Took {
        counts,
        next: line.next,
    })
}

// The line at a cursor is entered. A plain line is read in one walk; any other goes to the readers of lines and fields,
// and so does every malformed one.
fn enter_at(
    table: &Table,
    b: Bounds,
    text: &[u8],
    c: Cursor,
    s: Counts,
    rec: &mut [u8],
    marks: &mut [u64],
) -> Result<Took, RecordRefusal>
    requires { (c.at < length text.now) × EndedTo text.now c.ended × Room b
        × Fits s rec.old × Spans s marks.old }
    ensures { Takes b text.now c.at c.line s rec.old marks.old result
        rec.new marks.new }
{
    let at = c.at;
    let open = open_at(table, text, c);
    if open.behind == COMMA {
        if let Some(kind) = kind_of(open.letter) {
            let f = two_at(table, 4, text, at);
            if at < f.next {
                let counts = enter_mark(b, kind, c.line, f.a, f.b, s, marks)?;
                return Ok(Took {
                    counts,
                    next: f.next,
                });
            }
        }
    }
    if opens_with(LETTER_C, open) {
        let f = three_at(table, 4, text, at);
        if at < f.next {
            let counts = enter_condition(b, c.line, f.a, f.b, f.c, s, rec)?;
            return Ok(Took {
                counts,
                next: f.next,
            });
        }
    }
    if opens_with(LETTER_E, open) {
        let f = one_at(table, 4, text, at);
        if at < f.next {
            let counts = enter_event(b, c.line, f.a, s, rec)?;
            return Ok(Took {
                counts,
                next: f.next,
            });
        }
    }
    enter_any(table, b, text, c, s, rec, marks)
}

// The record that a text declares, in bytes and in words for its marks that are all zero before; its counts.
pub fn read_record(
    b: Bounds,
    text: &[u8],
    rec: &mut [u8],
    marks: &mut [u64],
) -> Result<Counts, RecordRefusal>
    requires { Room b × (record_bytes ≤ length rec.old) × Blank text.now marks.old }
    ensures { ReadsRecord b text.now result rec.new marks.new
        × MarksFit result marks.new }
{
    let table = byte_table();
    let ended = ended_to(&table, text);
    let mut s = Counts {
        events: 0,
        conditions: 0,
        marks: 0,
    };
    let mut k: usize = 1;
    let mut at: usize = 0;
    // A while: the text moves by what is read of each line, which no range or iterator says.
    while at < text.len() {
        let line = Cursor { line: k, at, ended };
        let took = enter_at(&table, b, text, line, s, rec, marks)?;
        s = took.counts;
        at = took.next;
        k += 1;
    }
    Ok(s)
}
