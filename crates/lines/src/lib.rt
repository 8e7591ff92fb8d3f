// The lines of a text, one after the other.
#![tactic(auto)]

ghost use Rattle.std.specs.Prelude.{◌≡◌, ◌+◌, ◌<◌, ◌≤◌, max, length};
ghost use Rattle.spec.specs.declared.Class.TheVariants.{Return};
ghost use Rattle.byte_entries.specs.Entries.{code_of};
ghost use Rattle.lines.specs.Lines.{end_from, RawLineAt, LineAt, past_by, EndedTo, opening_of, opens_with};

use byte_classes::{Table, byte_table};
use byte_entries::{COMMA, FOREIGN, LINE_END, RETURN};

// A line of a text: it ends before `end`, and the next one starts at `next`.
#[derive(Clone, Copy)]
pub struct Span {
    pub end: usize,
    pub next: usize,
    pub ended: bool,
}

// ---- a reading position

// It belongs to one text and moves forward only.
#[derive(Clone, Copy)]
pub struct Reader<'a> {
    pub text: &'a [u8],
    pub at: usize,
}

impl<'a> Reader<'a> {
    // At a place of a text.
    pub fn new(text: &'a [u8], at: usize) -> Reader<'a>
        ensures { (result.text ≡ text.entry) × (result.at ≡ at) }
    {
        Reader { text, at }
    }

    // Where the line ends at which the reader stands. The table is made here, since none comes with a reader: lines in
    // their form do not come this way.
    pub fn line_end(self) -> usize
        requires { self.at ≤ length self.text.now }
        ensures { (result ≡ end_from self.entry.text.now self.entry.at) × (result ≤ length self.entry.text.now) }
    {
        byte_table().end_of(LINE_END, self.text, self.at)
    }

    // The same text, and a place that is no earlier.
    pub fn moved(self, to: usize) -> Reader<'a>
        ensures { (result.text ≡ self.entry.text) × (result.at ≡ max self.entry.at to) × (self.entry.at ≤ result.at) }
    {
        Reader {
            text: self.text,
            at: self.at.max(to),
        }
    }
}

// What starts at a position up to the next byte 10: a reader stands there, sees where the line ends, and moves past that
// end.
fn raw_line_at(s: &[u8], at: usize) -> Span
    requires { at < length s.now }
    ensures { RawLineAt s.now at result }
{
    let here = Reader::new(s, at);
    let end = here.line_end();
    Span {
        end,
        next: here.moved(end + 1).at,
        ended: end < s.len(),
    }
}

// ---- line endings: byte 10, or 13 and 10

// The line that starts at a position. A byte 13 in front of its byte 10 belongs to the ending.
pub fn line_at(table: &Table, s: &[u8], at: usize) -> Span
    requires { at < length s.now }
    ensures { LineAt s.now at result }
{
    let raw = raw_line_at(s, at);
    let end = raw.end;
    if !raw.ended | (end <= at) {
        return raw;
    }
    if table.entry_of(s[end - 1]) != RETURN {
        return raw;
    }
    Span {
        end: end - 1,
        next: raw.next,
        ended: raw.ended,
    }
}

// Where the next line starts if an ending stands at a position, of which the entry is known; else the position.
pub fn past_ending(table: &Table, s: &[u8], entry: u8, at: usize) -> usize
    requires { (entry ≡ code_of Return → at + 1 < length s.now) × (at ≤ length s.now) }
    ensures { result ≡ past_by entry s.now at }
{
    if entry == LINE_END {
        return at + 1;
    }
    if entry != RETURN {
        return at;
    }
    if table.entry_of(s[at + 1]) != LINE_END {
        return at;
    }
    at + 2
}

// ---- where a line begins

// How far a text is made of ended lines: behind its last line end. Up to there a reader meets a line end before the text
// ends, so that it tests no length.
pub fn ended_to(table: &Table, s: &[u8]) -> usize
    ensures { EndedTo s.now result }
{
    for i in (0..s.len()).rev() {
        if table.entry_of(s[i]) == LINE_END {
            return i + 1;
        }
    }
    0
}

// The number of a line, where it starts, and how far the text is made of ended lines.
#[derive(Clone, Copy)]
pub struct Cursor {
    pub line: usize,
    pub at: usize,
    pub ended: usize,
}

// The entries of the first two bytes of a line.
#[derive(Clone, Copy)]
pub struct Opening {
    pub letter: u8,
    pub behind: u8,
}

// Those of the line at a cursor; of a line that is empty or not ended nothing is told.
pub fn open_at(table: &Table, s: &[u8], c: Cursor) -> Opening
    requires { (c.at < length s.now) × (c.ended ≤ length s.now) }
    ensures { result ≡ opening_of s.now c }
{
    let first = c.at;
    let second = first + 1;
    if c.ended <= second {
        return Opening {
            letter: FOREIGN,
            behind: FOREIGN,
        };
    }
    Opening {
        letter: table.entry_of(s[first]),
        behind: table.entry_of(s[second]),
    }
}

// Whether a line begins with a letter and a comma.
pub fn opens_with(letter: u8, o: Opening) -> bool
    ensures { result ≡ opens_with letter o }
{
    (o.letter == letter) & (o.behind == COMMA)
}
