// The lines of an arrangement: read and entered one after the other (refusals 41 to 43), held to the order of their
// events from the last to the first (44), and searched for an event that is missing (45).
#![tactic(auto)]

ghost use Rattle.std.specs.Prelude.{◌≡◌, ◌<◌, ◌≤◌, length, replicate};
ghost use Rattle.lines.specs.Lines.{line_of, EndedTo};
ghost use Rattle.reach.specs.Rows.{Good};
ghost use Rattle.arrangement_reader.specs.Lined.{event_count, lined_size, Enterable, Enters, Addable};
ghost use Rattle.arrangement_reader.specs.Lined.{AddsLine, AnyTaken, Meets, Unites, path_of, Lacks, WithLacking};
ghost use Rattle.arrangement_reader.specs.Lined.{AllEvents, Grouped, FindsBroken};
ghost use Rattle.arrangement_reader.specs.Arrangement.{answer_of, KnownLine, KnownAt};
ghost use Rattle.arrangement_reader.specs.Arrangement.{ReadsLines, finished};

use bit_sets::Set;
use byte_classes::{Table, byte_table};
use byte_entries::LETTER_G;
use lines::{Cursor, ended_to, line_at};
use number_lines::{NUMBERS, any_unknown, count_numbers, is_list_line, list_at, numbers};
use reach::{WORDS, row_at};
use spec::Class;

// The line of each event; and the events, one line after the other, with how many the first lines have behind them.
pub const STANDS: usize = 128;

pub const LINED: usize = 257;

// Where it starts to say how many events the first lines have, none of them first; and where it says of line k, counted
// from 1, how many the lines before it have.
pub const ENDS: usize = 128;

const BEFORE: usize = ENDS - 1;

// Why an arrangement is refused: its line, or the event that no line has.
#[derive(Clone, Copy, Debug, PartialEq, Eq)]
pub enum ArrangementRefusal {
    Malformed(usize),
    Unknown(usize),
    Repeated(usize),
    Broken(usize),
    Missing(usize),
}

// The lines of an arrangement by 41 to 43: how many were taken, and why the next one was not, where one was refused.
#[derive(Clone, Copy)]
pub struct LinesRead {
    pub lines: usize,
    pub refused: Option<ArrangementRefusal>,
}

// A line by 41 and 42: how many numbers it has, and where the next one starts.
#[derive(Clone, Copy)]
pub struct Known {
    pub count: usize,
    pub next: usize,
}

// The events of a line, what one of them is not later than, and what one of them is strictly before.
#[derive(Clone, Copy)]
pub struct Group {
    pub line: Set,
    pub path: Set,
    pub strict: Set,
}

// 41 and 42 of a line, with its numbers, if there is room for them in an array.
fn known_line(
    table: &Table,
    k: usize,
    l: &[u8],
    ended: bool,
    n: usize,
    next: usize,
    events: &mut [u8; NUMBERS],
) -> Result<Known, ArrangementRefusal>
    requires { (n ≤ event_count) × (length events.old ≡ event_count) }
    ensures { KnownLine n k (line_of l.now ended) next result events.new }
{
    if !is_list_line(table, Class::LetterG, l, ended) {
        return Err(ArrangementRefusal::Malformed(k));
    }
    if any_unknown(table, l, n) {
        return Err(ArrangementRefusal::Unknown(k));
    }
    let count = count_numbers(table, l);
    if NUMBERS < count {
        return Ok(Known { count, next });
    }
    *events = numbers(table, l);
    Ok(Known { count, next })
}

// 41 and 42 of the line at a cursor. A plain line, where a line end is ahead, is read in one walk; any other goes to
// the readers of lines and fields, and so does every malformed one.
fn known_at(
    table: &Table,
    text: &[u8],
    c: Cursor,
    n: usize,
    events: &mut [u8; NUMBERS],
) -> Result<Known, ArrangementRefusal>
    requires { (c.at < length text.now) × EndedTo text.now c.ended
        × (n ≤ event_count) × (length events.old ≡ event_count) }
    ensures { KnownAt n c.line text.now c.at result events.new }
{
    let k = c.line;
    let at = c.at;
    if at < c.ended {
        let f = list_at(table, LETTER_G, text, at, events);
        if at < f.next {
            if n <= f.high {
                return Err(ArrangementRefusal::Unknown(k));
            }
            return Ok(Known {
                count: f.count,
                next: f.next,
            });
        }
    }
    let line = line_at(table, text, at);
    let end = line.end;
    known_line(table, k, &text[at..end], line.ended, n, line.next, events)
}

// 43: each event of line k is entered; whether one of them has a line already.
fn enter_events(stands: &mut [u8; STANDS], events: &[u8], k: u8) -> bool
    requires { Enterable k stands.old events.now }
    ensures { Enters k stands.old events.now result stands.new }
{
    for event in events {
        let e = usize::from(*event);
        if 0 < stands[e] {
            return true;
        }
        stands[e] = k;
    }
    false
}

// The events of line k are put behind those of the lines before it.
fn add_line(lined: &mut [u8; LINED], events: &[u8], k: usize)
    requires { Addable lined.old events.now k }
    ensures { AddsLine lined.old events.now k lined.new }
{
    let from = usize::from(lined[BEFORE + k]);
    let end = from + events.len();
    lined[from..end].copy_from_slice(events);
    lined[ENDS + k] = end as u8;
}

// 41 to 43: the lines of a text, of n events, are entered one after the other.
pub fn read_lines(
    text: &[u8],
    n: usize,
    stands: &mut [u8; STANDS],
    lined: &mut [u8; LINED],
) -> LinesRead
    requires { (n ≤ event_count) × (stands.old ≡ replicate event_count 0) × (lined.old ≡ replicate lined_size 0) }
    ensures { ReadsLines n text.now result stands.new lined.new }
{
    let table = byte_table();
    let ended = ended_to(&table, text);
    let mut events = [0u8; NUMBERS];
    let mut lines = 0;
    let mut at = 0;
    // A while: the place moves by the line that is read, which no range or iterator says.
    while at < text.len() {
        let k = lines + 1;
        let here = Cursor { line: k, at, ended };
        let line = match known_at(&table, text, here, n, &mut events) {
            Ok(line) => line,
            Err(refusal) => {
                return LinesRead {
                    lines,
                    refused: Some(refusal),
                };
            }
        };
        let repeated = LinesRead {
            lines,
            refused: Some(ArrangementRefusal::Repeated(k)),
        };
        // A line with more numbers than there are events has one of them twice.
        if NUMBERS < line.count {
            return repeated;
        }
        let es = &events[..line.count];
        if enter_events(stands, es, k as u8) {
            return repeated;
        }
        add_line(lined, es, k);
        lines = k;
        at = line.next;
    }
    LinesRead {
        lines,
        refused: None,
    }
}

// Whether a number is in both sets.
fn meets(a: Set, b: Set) -> bool
    ensures { Meets a b result }
{
    a.meet(b).first().is_some()
}

// The set, and with it that of an event in line x where x is none of the first lines.
fn with_lacking(r: Set, more: Set, lines: usize, x: usize) -> Set
    requires { lines ≤ event_count }
    ensures { WithLacking r more lines x result }
{
    if 0 < x && x <= lines {
        return r;
    }
    r.union(more)
}

// What one of the events without a line is not later than.
fn behind_lacking(w: &[u64; WORDS], n: usize, stands: &[u8; STANDS], lines: usize) -> Set
    requires { (n ≤ event_count) × (lines ≤ event_count) }
    ensures { Unites (path_of w.now) (Lacks n lines stands.now) result }
{
    let mut r = Set::none();
    for d in 0..n {
        r = with_lacking(r, row_at(w, d).path, lines, usize::from(stands[d]));
    }
    r
}

// The events of a line as sets.
fn group_of(w: &[u64; WORDS], events: &[u8]) -> Group
    requires { AllEvents events.now }
    ensures { Grouped w.now events.now result }
{
    let mut line = Set::none();
    let mut path = Set::none();
    let mut strict = Set::none();
    for event in events {
        let e = usize::from(*event);
        let row = row_at(w, e);
        line = line.union(Set::one(e));
        path = path.union(row.path);
        strict = strict.union(row.strict);
    }
    Group { line, path, strict }
}

// 44: the lowest line that breaks the order. From the last line to the first `late` has what an event that stands
// in no line up to this one is not later than.
pub fn first_broken(
    w: &[u64; WORDS],
    n: usize,
    stands: &[u8; STANDS],
    lined: &[u8; LINED],
    lines: usize,
) -> Option<usize>
    requires { (n ≤ event_count) × Good w.now × AnyTaken n lines stands.now lined.now }
    ensures { FindsBroken n lines w.now stands.now lined.now result }
{
    let mut late = behind_lacking(w, n, stands, lines);
    let mut broken = None;
    for k in (0..lines).rev() {
        let from = usize::from(lined[ENDS + k]);
        let to = usize::from(lined[ENDS + k + 1]);
        let g = group_of(w, &lined[from..to]);
        let breaks = meets(late.union(g.strict), g.line);
        late = late.union(g.path);
        if breaks {
            broken = Some(k + 1);
        }
    }
    broken
}

// 45: the lowest event that no line has is missing; where each has one, so many lines keep the order.
pub fn finish(stands: &[u8; STANDS], n: usize, lines: usize) -> Result<usize, ArrangementRefusal>
    requires { n ≤ event_count }
    ensures { answer_of result ≡ finished stands.now n lines }
{
    for e in 0..n {
        if stands[e] == 0 {
            return Err(ArrangementRefusal::Missing(e));
        }
    }
    Ok(lines)
}
