// Where a record stands in bytes and words, and how an event, a condition or a mark is entered there, or refused.
#![tactic(auto)]

ghost use Rattle.std.specs.Prelude.{◌≡◌, true, ◌<◌, ◌≤◌};
ghost use Rattle.spec.specs.Process.{is_below};
ghost use Rattle.spec.specs.Record.{slot_of};
ghost use Rattle.line_forms.specs.Rows.{event_of};
ghost use Rattle.reach.specs.Rows.{way};
ghost use Rattle.record_columns.specs.Layout.{events_most, conditions_most, event_code};
ghost use Rattle.record_columns.specs.Layout.{mark_slots, mark_row, kind_code};
ghost use Rattle.record_columns.specs.Enters.{condition_in, mark_of};
ghost use Rattle.record_columns.specs.Enters.{Room, Fits, Spans, EntersEvent, EntersCondition, EntersMark};

use line_forms::Slot;
use reach::{raise, related};
use spec::{Limits, MarkKind};

// How many events and conditions a record has room for; its bytes, and the words of its marks, eight for each condition.
pub const EVENTS: usize = 128;

pub const CONDITIONS: usize = 512;

pub const RECORD: usize = 1664;

pub const MARK_WORDS: usize = 4096;

// The byte of a producer or consumer that is none: a byte of the column, where an Option would take two.
pub const NO_EVENT: u8 = 128;

// Where the bytes of a record stand. Before PLACES stand the transitions of the events; then from each number on the
// places of the conditions, their producers, their consumers.
pub const PLACES: usize = 128;

pub const PRODUCERS: usize = 640;

pub const CONSUMERS: usize = 1152;

// The marks stand in words beside them, as `reach` has its rows: two for each condition, since R stands beside B or A
// (02, 2026-01). In the first an event has 1 under B, 2 under A; in the second 1 under R; and 0 where there is no mark.
pub const SLOTS: usize = 2;

pub const GUARD_SLOT: usize = 0;

pub const READ_SLOT: usize = 1;

// What a record may have, and the places and transitions that its net has.
#[derive(Clone, Copy)]
pub struct Bounds {
    pub limits: Limits,
    pub places: usize,
    pub transitions: usize,
}

// How many events, conditions and marks a record has.
#[derive(Clone, Copy, Debug, PartialEq, Eq)]
pub struct Counts {
    pub events: usize,
    pub conditions: usize,
    pub marks: usize,
}

// Why a record is refused: by its reader, with the line, or by a rule of processes, with the lowest place or event. The
// answers of all operations that take a record hold it.
#[derive(Clone, Copy, Debug, PartialEq, Eq)]
pub enum RecordRefusal {
    Malformed(usize),
    LimitPassed(usize),
    Undeclared(usize),
    MarkedAlready(usize),
    WrongInitial(usize),
    WrongArcs(usize),
    WrongMarks(usize),
    WrongKind(usize),
    BeforeItself(usize),
}

// Whether a producer or consumer is none, or an event below n.
#[tactic(auto, unfolding(spec::specs::Process::is_below))]
fn event_below(n: usize, f: Slot) -> bool
    ensures { result ≡ is_below n (event_of f) }
{
    match f {
        Slot::Number(e) => e < n,
        Slot::Dash | Slot::Wrong | Slot::Absent => true,
    }
}

// The byte of a producer or consumer: none is the number behind the last event that there can be.
fn event_code(f: Slot) -> usize
    ensures { result ≡ event_code (event_of f) }
{
    match f {
        Slot::Number(e) => e,
        Slot::Dash | Slot::Wrong | Slot::Absent => EVENTS,
    }
}

// Whether a mark is A.
pub fn is_after(x: MarkKind) -> bool
    ensures { way result ≡ kind_code x }
{
    matches!(x, MarkKind::After)
}

// The slot of a mark.
#[tactic(auto, unfolding(spec::specs::Record::slot_of))]
pub fn slot_of(x: MarkKind) -> usize
    ensures { result ≡ slot_of x }
{
    match x {
        MarkKind::Before | MarkKind::After => GUARD_SLOT,
        MarkKind::Read => READ_SLOT,
    }
}

// The row of a slot of condition c.
pub fn mark_row(c: usize, slot: usize) -> usize
    requires { (c < conditions_most) × (slot < mark_slots) }
    ensures { result ≡ mark_row c slot }
{
    SLOTS * c + slot
}

// One more event; the counts with it.
pub fn enter_event(
    b: Bounds,
    k: usize,
    t: usize,
    s: Counts,
    rec: &mut [u8],
) -> Result<Counts, RecordRefusal>
    requires { Room b × Fits s rec.old }
    ensures { EntersEvent b k t s rec.old result rec.new }
{
    let lim = b.limits;
    if (s.conditions != 0) | (s.marks != 0) {
        return Err(RecordRefusal::Malformed(k));
    }
    if lim.events <= s.events {
        return Err(RecordRefusal::LimitPassed(k));
    }
    if b.transitions <= t {
        return Err(RecordRefusal::Undeclared(k));
    }
    rec[s.events] = t as u8;
    Ok(Counts {
        events: s.events + 1,
        ..s
    })
}

// One more condition; the counts with it.
pub fn enter_condition(
    b: Bounds,
    k: usize,
    p: usize,
    producer: Slot,
    consumer: Slot,
    s: Counts,
    rec: &mut [u8],
) -> Result<Counts, RecordRefusal>
    requires { Room b × Fits s rec.old }
    ensures { EntersCondition b k (condition_in p producer consumer) s rec.old result rec.new }
{
    let lim = b.limits;
    if s.marks != 0 {
        return Err(RecordRefusal::Malformed(k));
    }
    if lim.conditions <= s.conditions {
        return Err(RecordRefusal::LimitPassed(k));
    }
    let n = s.events;
    if !((p < b.places) & event_below(n, producer) & event_below(n, consumer)) {
        return Err(RecordRefusal::Undeclared(k));
    }
    let c = s.conditions;
    rec[PLACES + c] = p as u8;
    rec[PRODUCERS + c] = event_code(producer) as u8;
    rec[CONSUMERS + c] = event_code(consumer) as u8;
    Ok(Counts {
        conditions: c + 1,
        ..s
    })
}

// One more mark; the counts with it.
pub fn enter_mark(
    b: Bounds,
    x: MarkKind,
    k: usize,
    c: usize,
    e: usize,
    s: Counts,
    marks: &mut [u64],
) -> Result<Counts, RecordRefusal>
    requires { Room b × (s.events ≤ events_most) × (s.conditions ≤ conditions_most) × Spans s marks.old }
    ensures { EntersMark b k (mark_of x c e) s marks.old result marks.new }
{
    let lim = b.limits;
    if lim.marks <= s.marks {
        return Err(RecordRefusal::LimitPassed(k));
    }
    if s.conditions <= c {
        return Err(RecordRefusal::Undeclared(k));
    }
    if s.events <= e {
        return Err(RecordRefusal::Undeclared(k));
    }
    let row = mark_row(c, slot_of(x));
    if related(marks, row, e) {
        return Err(RecordRefusal::MarkedAlready(k));
    }
    raise(marks, row, e, is_after(x));
    Ok(Counts {
        marks: s.marks + 1,
        ..s
    })
}
