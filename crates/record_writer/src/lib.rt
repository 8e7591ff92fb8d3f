// The record of a run, written from its history, and its marks noted in the words that the rules read.
#![tactic(auto)]

ghost use Rattle.std.specs.Prelude.{◌≡◌, ℕ, ◌+◌, ◌≤◌, ◌<◌, ◌∷◌, [], length, get_or, eqb};
ghost use Rattle.writing.specs.Written.{Wrote};
ghost use Rattle.bit_sets.specs.Bits.{bit};
ghost use Rattle.arc_sets.specs.Sets.{Within};
ghost use Rattle.reach.specs.Rows.{Sub, row_of};
ghost use Rattle.record_columns.specs.Layout.{events_most, conditions_most, record_bytes};
ghost use Rattle.record_columns.specs.Enters.{mark_of};
ghost use Rattle.line_writer.specs.Lines.{kind_if};
ghost use Rattle.condition_sets.specs.Sets.{word_bits};
ghost use Rattle.record_writer.specs.Bytes.{event_lines, condition_lines, Writable};
ghost use Rattle.record_writer.specs.Notes.{NotesMarks, Puts, Room, guard_if, note_if, spot_notes, part_notes, row_notes};
ghost use Rattle.record_writer.specs.Notes.{Consumer, SpotConsumer, PartConsumers, RowConsumers};
ghost use Rattle.record_writer.specs.Notes.{run_notes, run_bytes, unmarked, Recorded};

use arc_sets::{READ, SETS};
use bit_sets::members;
use condition_sets::{KNOWN, SET, WORD, WORDS, enter_places, ready};
use held_conditions::{Moment, NEXTS, reads_of};
use line_writer::{put_condition, put_event, put_mark};
use reach::raise;
use record_columns::{
    CONSUMERS, Counts, EVENTS, MARK_WORDS, PLACES, PRODUCERS, is_after, mark_row, slot_of,
};
use spec::MarkKind;

// Where the text ends, and how many marks there are.
#[derive(Clone, Copy)]
pub struct Ends {
    pub at: usize,
    pub marks: usize,
}

// The lines of the first n events.
fn put_events(out: &mut [u8], at: usize, rec: &[u8], n: usize) -> usize
    requires { (n ≤ events_most) × (record_bytes ≤ length rec.now)
        × (at + length (event_lines rec.now n) ≤ length out.old) }
    ensures { Wrote out.old at (event_lines rec.now n) result out.new }
{
    let mut next = at;
    for &t in &rec[..n] {
        next = put_event(out, next, t);
    }
    next
}

// The lines of the first n conditions.
fn put_conditions(out: &mut [u8], at: usize, rec: &[u8], n: usize) -> usize
    requires { (n ≤ conditions_most) × (record_bytes ≤ length rec.now)
        × (at + length (condition_lines rec.now n) ≤ length out.old) }
    ensures { Wrote out.old at (condition_lines rec.now n) result out.new }
{
    let mut next = at;
    for c in 0..n {
        next = put_condition(
            out,
            next,
            rec[PLACES + c],
            rec[PRODUCERS + c],
            rec[CONSUMERS + c],
        );
    }
    next
}

// One mark more, of condition c and event e, where there are words for marks.
fn note_mark(marks: &mut [u64], x: MarkKind, c: usize, e: usize)
    requires { (c < conditions_most) × (e < events_most) × ((i : ℕ) → Sub (row_of marks.old i)) }
    ensures { NotesMarks (mark_of x c e ∷ []) marks.old marks.new }
{
    if marks.len() < MARK_WORDS {
        return;
    }
    raise(marks, mark_row(c, slot_of(x)), e, is_after(x));
}

// One mark is written and noted.
fn put_one(out: &mut [u8], marks: &mut [u64], ends: Ends, x: MarkKind, c: usize, e: usize) -> Ends
    requires { (e < events_most) × (c < conditions_most) × Room (mark_of x c e ∷ []) ends out.old marks.old }
    ensures { Puts (mark_of x c e ∷ []) ends out.old marks.old result
        out.new marks.new }
{
    let at = put_mark(out, ends.at, x, c, e);
    note_mark(marks, x, c, e);
    Ends {
        at,
        marks: ends.marks + 1,
    }
}

// B, or A where the condition was consumed before.
fn kind_if(after: bool) -> MarkKind
    ensures { result ≡ kind_if after }
{
    if after {
        MarkKind::After
    } else {
        MarkKind::Before
    }
}

// The event's mark at condition c, of a place that inhibits it, unless the event produced the condition.
fn put_due(out: &mut [u8], marks: &mut [u64], ends: Ends, m: &Moment, c: usize) -> Ends
    requires { (c < conditions_most) × Consumer m.now.rec.now c
        × Room (guard_if 1 m.now.rec.now m.now.steps.now m.now.event c) ends out.old marks.old }
    ensures { Puts (guard_if 1 m.now.rec.now m.now.steps.now m.now.event c) ends
        out.old marks.old result out.new marks.new }
{
    if m.rec[PRODUCERS + c] == m.event as u8 {
        return ends;
    }
    let kind = kind_if(m.earlier(m.rec[CONSUMERS + c]));
    put_one(out, marks, ends, kind, c, m.event)
}

// A condition: whether its place inhibits an event, and whether the event reads it.
#[derive(Clone, Copy)]
pub struct Spot {
    pub guard: bool,
    pub read: bool,
    pub condition: usize,
}

// The event's marks at a condition: B or A, and R.
fn put_spot(out: &mut [u8], marks: &mut [u64], ends: Ends, m: &Moment, spot: Spot) -> Ends
    requires { (spot.condition < conditions_most) × SpotConsumer spot m.now.rec.now
        × Room (spot_notes spot m.now.rec.now m.now.steps.now m.now.event) ends out.old marks.old }
    ensures { Puts (spot_notes spot m.now.rec.now m.now.steps.now m.now.event) ends
        out.old marks.old result out.new marks.new }
{
    let c = spot.condition;
    if !spot.guard {
        if spot.read {
            return put_one(out, marks, ends, MarkKind::Read, c, m.event);
        }
        return ends;
    }
    let next = put_due(out, marks, ends, m, c);
    if spot.read {
        return put_one(out, marks, next, MarkKind::Read, c, m.event);
    }
    next
}

// Whether bit i of a word is set.
fn is_set(word: u64, i: usize) -> bool
    requires { i < word_bits }
    ensures { result ≡ eqb (bit word i) 1 }
{
    (word >> i) & 1 == 1
}

// Some conditions: a word of the set of those whose places inhibit an event, one of the set of those that it reads, and
// the condition of the words' bit 0.
#[derive(Clone, Copy)]
pub struct Part {
    pub guards: u64,
    pub reads: u64,
    pub first: usize,
}

// The event's marks at the conditions of a part.
fn put_part(out: &mut [u8], marks: &mut [u64], ends: Ends, m: &Moment, part: Part) -> Ends
    requires { (part.first + word_bits ≤ conditions_most) × PartConsumers part m.now.rec.now
        × Room (part_notes part m.now.rec.now m.now.steps.now m.now.event) ends out.old marks.old }
    ensures { Puts (part_notes part m.now.rec.now m.now.steps.now m.now.event) ends
        out.old marks.old result out.new marks.new }
{
    let mut next = ends;
    for i in members(part.guards | part.reads) {
        let spot = Spot {
            guard: is_set(part.guards, i),
            read: is_set(part.reads, i),
            condition: part.first + i,
        };
        next = put_spot(out, marks, next, m, spot);
    }
    next
}

// An event's marks at the conditions of the row of its transition, and at those that it reads.
fn put_row(
    out: &mut [u8],
    marks: &mut [u64],
    ends: Ends,
    m: &Moment,
    watched: &[u64; WORDS],
    reads: &[u64; SET],
) -> Ends
    requires { (get_or m.now.rec.now m.now.event 0 < 32) × RowConsumers watched.now m.now.rec.now m.now.event
        × Room (row_notes watched.now reads.now m.now.rec.now m.now.steps.now m.now.event) ends out.old marks.old }
    ensures { Puts (row_notes watched.now reads.now m.now.rec.now m.now.steps.now m.now.event) ends
        out.old marks.old result out.new marks.new }
{
    let t = m.rec[m.event] as usize;
    let mut next = ends;
    for w in 0..SET {
        let part = Part {
            guards: watched[SET * t + w],
            reads: reads[w],
            first: WORD * w,
        };
        next = put_part(out, marks, next, m, part);
    }
    next
}

// The marks of the events at the conditions, by event, then condition.
fn put_marks(
    out: &mut [u8],
    marks: &mut [u64],
    rec: &[u8],
    at: usize,
    steps: &[u8; EVENTS],
    arcs: &[u64; SETS],
    s: Counts,
) -> Ends
    requires { Writable s rec.now steps.now × Within 32 arcs.now
        × Room (run_notes arcs.now s rec.now steps.now) (unmarked at) out.old marks.old }
    ensures { Puts (run_notes arcs.now s rec.now steps.now) (unmarked at)
        out.old marks.old result out.new marks.new }
{
    let mut places = [0u64; WORDS];
    enter_places(&mut places, rec, s.conditions);
    let mut watched = [0u64; WORDS];
    let mut known = [0u8; KNOWN];
    let mut nexts = [0u16; NEXTS];
    let mut next = Ends { at, marks: 0 };
    for e in 0..s.events {
        let t = rec[e] as usize;
        ready(&mut watched, &mut known, t, &places, arcs);
        let m = Moment {
            rec,
            steps,
            event: e,
            conditions: s.conditions,
        };
        let reads = reads_of(&mut nexts, arcs[READ + t], &m);
        next = put_row(out, marks, next, &m, &watched, &reads);
    }
    next
}

// The record of a run with so many events and conditions, by its history: its events, its conditions, its marks. Where
// there are words for the marks they are noted there.
pub fn put_record(
    out: &mut [u8],
    marks: &mut [u64],
    rec: &[u8],
    steps: &[u8; EVENTS],
    arcs: &[u64; SETS],
    s: Counts,
) -> Ends
    requires { Writable s rec.now steps.now × Within 32 arcs.now
        × (length (run_bytes arcs.now s rec.now steps.now) ≤ length out.old)
        × (length (run_notes arcs.now s rec.now steps.now) ≤ 4096) × ((i : ℕ) → Sub (row_of marks.old i)) }
    ensures { Recorded arcs.now s rec.now steps.now
        out.old marks.old result out.new marks.new }
{
    let first = put_events(out, 0, rec, s.events);
    let second = put_conditions(out, first, rec, s.conditions);
    put_marks(out, marks, rec, second, steps, arcs, s)
}
