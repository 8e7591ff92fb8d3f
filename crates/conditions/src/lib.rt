// Conditions held by columns of a record's bytes: those that the events of a step take, and those that they make.
#![tactic(auto)]

ghost use Rattle.std.specs.Prelude.{[], ◌∷◌, map, ◌≡◌, ◌+◌, ◌≤◌, ◌<◌, length, replicate};
ghost use Rattle.runs.specs.Flows.{flow};
ghost use Rattle.runs.specs.Consume.{made_of};
ghost use Rattle.arc_sets.specs.Sets.{row_count, Within};
ghost use Rattle.run_counts.specs.Tally.{StepEvents};
ghost use Rattle.conditions.specs.Conditions.{tokens_of, taken_next, made_next, place_column, consumer_column};
ghost use Rattle.conditions.specs.Conditions.{free_at, FirstFree, fresh, ReadyAt, TookAt, MadeAt};
ghost use Rattle.record_columns.specs.Layout.{record_bytes};

use arc_sets::{MADE, SETS, set_at, weight};
use bit_sets::members;
use record_columns::{CONSUMERS, NO_EVENT, PLACES, PRODUCERS};
use run_counts::COUNTS;

// How far a run has come, beside the arrays that hold it: the line of the log that is next, its events and its
// conditions, how often an event made a condition in a place that inhibits it, and how many places its events read,
// which is how many marks R it has (02, 2026-01); and how large its net is.
#[derive(Clone, Copy)]
pub struct Extent {
    pub places: usize,
    pub transitions: usize,
    pub line: usize,
    pub events: usize,
    pub conditions: usize,
    pub own: usize,
    pub reads: usize,
}

// Where the first condition of each place that may be free stands among the counts by place.
pub const NEXT: usize = 64;

// Whether condition i is one of place p that no event has taken.
fn is_free(p: usize, rec: &[u8], i: usize) -> bool
    requires { (i < 512) × (record_bytes ≤ length rec.now) }
    ensures { result ≡ free_at p (place_column rec.now) (consumer_column rec.now) i }
{
    (usize::from(rec[PLACES + i]) == p) & (rec[CONSUMERS + i] == NO_EVENT)
}

// The first one from a number on, or the end.
fn first_free(p: usize, start: usize, end: usize, rec: &[u8]) -> usize
    requires { (start ≤ end) × (end ≤ 512) × (record_bytes ≤ length rec.now) }
    ensures { FirstFree p start end (place_column rec.now) (consumer_column rec.now) result }
{
    (start..end).find(|&i| is_free(p, rec, i)).unwrap_or(end)
}

// Event e takes the first free condition of place p among the first n.
fn take_one(e: usize, p: usize, n: usize, rec: &mut [u8], counts: &mut [u32; COUNTS])
    requires { (e < 128) × (p < 32) × ReadyAt n rec.old counts.old }
    ensures { TookAt (flow e p ∷ []) n rec.old counts.old
        rec.new counts.new }
{
    let i = first_free(p, counts[NEXT + p] as usize, n, rec);
    if n <= i {
        return;
    }
    rec[CONSUMERS + i] = e as u8;
    counts[NEXT + p] = (i + 1) as u32;
}

// It takes so many of them, one after the other.
fn take_times(
    e: usize,
    p: usize,
    count: usize,
    n: usize,
    rec: &mut [u8],
    counts: &mut [u32; COUNTS],
)
    requires { (e < 128) × (p < 32) × ReadyAt n rec.old counts.old }
    ensures { TookAt (replicate count (flow e p)) n rec.old counts.old
        rec.new counts.new }
{
    for _ in 0..count {
        take_one(e, p, n, rec, counts);
    }
}

// It takes what the arcs of a row stand for, by place.
fn take_event(
    e: usize,
    sets: &[u64; SETS],
    row: usize,
    n: usize,
    rec: &mut [u8],
    counts: &mut [u32; COUNTS],
)
    requires { (e < 128) × (row < row_count) × Within 32 sets.now × ReadyAt n rec.old counts.old }
    ensures { TookAt (tokens_of sets.now row e 64) n rec.old counts.old
        rec.new counts.new }
{
    for p in members(set_at(sets, row)) {
        take_times(e, p, weight(sets, row, p), n, rec, counts);
    }
}

// The events of a step, numbered behind those of the run, take from the conditions of the run, in their order.
pub fn take_step(
    step: &[u8],
    sets: &[u64; SETS],
    x: Extent,
    rec: &mut [u8],
    counts: &mut [u32; COUNTS],
)
    requires { (x.events + length step.now ≤ 128) × StepEvents step.now × Within 32 sets.now
        × ReadyAt x.conditions rec.old counts.old }
    ensures { TookAt (taken_next sets.now step.now x) x.conditions
        rec.old counts.old rec.new counts.new }
{
    let e = x.events;
    let n = x.conditions;
    for (i, &t) in step.iter().enumerate() {
        take_event(e + i, sets, usize::from(t), n, rec, counts);
    }
}

// So many new conditions of place p, with the code of their producer, are put behind the first n; how many there are
// then.
pub fn make_times(v: u8, p: usize, count: usize, n: usize, rec: &mut [u8]) -> usize
    requires { (p < 32) × (n + count ≤ 512) × (record_bytes ≤ length rec.old) }
    ensures { MadeAt (replicate count (fresh v p)) n rec.old result rec.new }
{
    let end = n + count;
    for i in n..end {
        rec[PLACES + i] = p as u8;
        rec[PRODUCERS + i] = v;
        rec[CONSUMERS + i] = NO_EVENT;
    }
    end
}

// Event e makes what the arcs of a row stand for, by place.
fn make_event(e: usize, sets: &[u64; SETS], row: usize, n: usize, rec: &mut [u8]) -> usize
    requires { (e < 128) × (row < row_count) × Within 32 sets.now
        × (n + length (tokens_of sets.now row e 64) ≤ 512) × (record_bytes ≤ length rec.old) }
    ensures { MadeAt (map made_of (tokens_of sets.now row e 64)) n
        rec.old result rec.new }
{
    let mut r = n;
    for p in members(set_at(sets, row)) {
        r = make_times(e as u8, p, weight(sets, row, p), r, rec);
    }
    r
}

// The events of a step, numbered behind those of the run, make theirs; how many conditions there are then.
pub fn make_step(step: &[u8], sets: &[u64; SETS], x: Extent, rec: &mut [u8]) -> usize
    requires { (x.events + length step.now ≤ 128) × StepEvents step.now × Within 32 sets.now
        × (x.conditions + length (made_next sets.now step.now x) ≤ 512) × (record_bytes ≤ length rec.old) }
    ensures { MadeAt (map made_of (made_next sets.now step.now x)) x.conditions
        rec.old result rec.new }
{
    let e = x.events;
    let mut r = x.conditions;
    for (i, &t) in step.iter().enumerate() {
        r = make_event(e + i, sets, MADE + usize::from(t), r, rec);
    }
    r
}
