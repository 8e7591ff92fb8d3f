// Which conditions held when the step of an event began, by the steps of the events; and which of them the event reads
// (02, 2026-01): in each place that its transition reads, the lowest-numbered one.
#![tactic(auto)]

ghost use Rattle.std.specs.Prelude.{◌≡◌, ◌≤◌, ◌<◌, length};
ghost use Rattle.record_columns.specs.Layout.{conditions_most};
ghost use Rattle.condition_sets.specs.Sets.{InPlaces};
ghost use Rattle.held_conditions.specs.Held.{earlier_at, left_at, held_at};
ghost use Rattle.held_conditions.specs.Held.{FirstOf, Joins, Passed, Readable, ReadsPlace, ReadsOf};

use bit_sets::members;
use condition_sets::{SET, WORD};
use record_columns::{CONSUMERS, EVENTS, NO_EVENT, PLACES, PRODUCERS};

// A condition for each place: those of the place before it were consumed.
pub const NEXTS: usize = 32;

// The moment when the step of an event begins, in a run whose history a record's bytes hold, with the steps of its events.
#[derive(Clone, Copy)]
pub struct Moment<'a> {
    pub rec: &'a [u8],
    pub steps: &'a [u8; EVENTS],
    pub event: usize,
    pub conditions: usize,
    pub ghost readable: { Readable rec.now event conditions },
}

impl Moment<'_> {
    // Whether a condition's producer or consumer is an event of an earlier step.
    pub fn earlier(&self, end: u8) -> bool
        requires { end ≤ 128 }
        ensures { result ≡ earlier_at self.now.steps.now self.now.event end }
    {
        if end == NO_EVENT {
            return false;
        }
        self.steps[end as usize] < self.steps[self.event]
    }

    // Whether condition c is of place p and was not consumed in an earlier step.
    fn left(&self, p: usize, c: usize) -> bool
        requires { c < self.now.conditions }
        ensures { result ≡ left_at self.now.rec.now self.now.steps.now p self.now.event c }
    {
        if usize::from(self.rec[PLACES + c]) == p {
            return !self.earlier(self.rec[CONSUMERS + c]);
        }
        false
    }

    // Whether it held: it was produced in an earlier step, if at all, and consumed in none.
    fn held(&self, p: usize, c: usize) -> bool
        requires { c < self.now.conditions }
        ensures { result ≡ held_at self.now.rec.now self.now.steps.now p self.now.event c }
    {
        let producer = self.rec[PRODUCERS + c];
        if producer == NO_EVENT {
            return self.left(p, c);
        }
        if self.earlier(producer) {
            return self.left(p, c);
        }
        false
    }

    // The first condition of place p from a number on that was not consumed in an earlier step, or how many there are.
    fn first_left(&self, p: usize, start: usize) -> usize
        requires { start ≤ self.now.conditions }
        ensures { FirstOf (left_at self.now.rec.now self.now.steps.now p self.now.event) start self.now.conditions result }
    {
        (start..self.conditions)
            .find(|&c| self.left(p, c))
            .unwrap_or(self.conditions)
    }

    // The first one that held, or how many there are.
    fn first_held(&self, p: usize, start: usize) -> usize
        requires { start ≤ self.now.conditions }
        ensures { FirstOf (held_at self.now.rec.now self.now.steps.now p self.now.event) start self.now.conditions result }
    {
        (start..self.conditions)
            .find(|&c| self.held(p, c))
            .unwrap_or(self.conditions)
    }
}

// Condition c joins a set.
fn join(reads: &mut [u64; SET], c: usize)
    requires { (c < conditions_most) × (length reads.old ≡ 8) }
    ensures { Joins c reads.old reads.new }
{
    let w = c / WORD;
    reads[w] = reads[w] | (1 << (c % WORD));
}

// The condition of place p that the event of a moment reads joins a set. The search starts where an earlier one showed that
// nothing before it is left, and steps only ascend.
fn read_place(reads: &mut [u64; SET], nexts: &mut [u16; NEXTS], m: &Moment, p: usize)
    requires { (p < 32) × (length reads.old ≡ 8) × Passed m.now.rec.now m.now.steps.now m.now.event m.now.conditions nexts.old }
    ensures { ReadsPlace m.now.rec.now m.now.steps.now p m.now.event m.now.conditions reads.old reads.new
        × Passed m.now.rec.now m.now.steps.now m.now.event m.now.conditions nexts.new }
{
    let start = m.first_left(p, usize::from(nexts[p]));
    nexts[p] = start as u16;
    let c = m.first_held(p, start);
    if c < m.conditions {
        join(reads, c);
    }
}

// The set of the conditions that the event of a moment reads, in the places of a set.
pub fn reads_of(nexts: &mut [u16; NEXTS], places: u64, m: &Moment) -> [u64; SET]
    requires { InPlaces places × Passed m.now.rec.now m.now.steps.now m.now.event m.now.conditions nexts.old }
    ensures { ReadsOf m.now.rec.now m.now.steps.now places m.now.event m.now.conditions result
        × Passed m.now.rec.now m.now.steps.now m.now.event m.now.conditions nexts.new }
{
    let mut reads = [0u64; SET];
    for p in members(places) {
        read_place(&mut reads, nexts, m, p);
    }
    reads
}
