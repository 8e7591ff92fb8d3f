// One step at a marking: summed, judged and played.
#![tactic(auto)]

ghost use Rattle.std.specs.Prelude.{◌≡◌, ◌+◌, ◌≤◌, ◌<◌, length, get_or, take};
ghost use Rattle.lists.specs.Stretch.{MappedFrom};
ghost use Rattle.arc_sets.specs.Sets.{row_count, read_at, weight_at, arc_at, Within};
ghost use Rattle.steps.specs.StepArrays.{marking_long, IsStep, Addable, AddedRow, TakenRow, Summable, Summed};
ghost use Rattle.steps.specs.StepArrays.{Payable, Paid, Within32, falls, Joined, SomePlace, Playable, MovedBy};
ghost use Rattle.steps.specs.Judged.{IsShort, Judges};

use arc_sets::{GUARDS, MADE, READ, SETS, set_at, weight};
use bit_sets::members;
use net::TOKENS;

// A step: the transitions of its events. A marking: the tokens of each place.
pub const STEP: usize = 128;

pub const MARKING: usize = 32;

// What a line of a log is refused for without its record being built, with its line: it is malformed, it names an
// unknown transition, it has more events than are left, or its step is not enabled at the marking.
#[derive(Clone, Copy, Debug, PartialEq, Eq)]
pub enum StepRefusal {
    Malformed(usize),
    UnknownTransition(usize),
    OverEvents(usize),
    TooFewTokens(usize),
    Inhibited(usize),
}

// How far a sequence of steps has come: the line that is next, and its events; and how large its net is.
#[derive(Clone, Copy, Debug, PartialEq, Eq)]
pub struct Position {
    pub places: usize,
    pub transitions: usize,
    pub line: usize,
    pub events: usize,
}

// ---- a step

// What the arcs of a row weigh is added to an array, by place, from a position on.
fn add_row(xs: &mut [u32], from: usize, sets: &[u64; SETS], row: usize)
    requires { (row < row_count) × Addable from (weight_at sets.now row) xs.old }
    ensures { AddedRow from (weight_at sets.now row) xs.old xs.new }
{
    for p in members(set_at(sets, row)) {
        xs[from + p] += weight(sets, row, p) as u32;
    }
}

// The same for each event of a step, by the rows that start at `at`.
pub fn add_all(
    step: &[u8; STEP],
    count: usize,
    sets: &[u64; SETS],
    at: usize,
    xs: &mut [u32],
    from: usize,
)
    requires { IsStep step.now count × Summable at from sets.now xs.old }
    ensures { Summed (arc_at sets.now at) (take count step.now) from
        xs.old xs.new }
{
    for t in &step[..count] {
        add_row(xs, from, sets, at + usize::from(*t));
    }
}

// What the arcs of a row weigh is taken from a marking.
fn take_row(xs: &mut [u32; MARKING], sets: &[u64; SETS], row: usize)
    requires { (row < row_count) × (length xs.old ≡ marking_long) × Payable (weight_at sets.now row) xs.old }
    ensures { TakenRow (weight_at sets.now row) xs.old xs.new }
{
    for p in members(set_at(sets, row)) {
        xs[p] -= weight(sets, row, p) as u32;
    }
}

// The inputs of each event of a step are taken from a marking.
fn take_all(step: &[u8; STEP], count: usize, sets: &[u64; SETS], marking: &mut [u32; MARKING])
    requires { IsStep step.now count × Playable sets.now (take count step.now) marking.old }
    ensures { Paid (arc_at sets.now 0) (take count step.now)
        marking.old marking.new }
{
    for t in &step[..count] {
        take_row(marking, sets, usize::from(*t));
    }
}

// ---- a step at a marking

// Whether some place has fewer tokens than are taken from it.
fn falls(marking: &[u32; MARKING], taken: &[u32; MARKING], places: usize) -> bool
    requires { places ≤ 32 }
    ensures { result ≡ falls marking.now taken.now places }
{
    (0..places).any(|p| marking[p] < taken[p])
}

// The places that one of the step's events is joined to, by the sets that start at `at`.
fn joined(step: &[u8; STEP], count: usize, sets: &[u64; SETS], at: usize) -> u64
    requires { IsStep step.now count × (at ≤ read_at) }
    ensures { Joined (arc_at sets.now at) (take count step.now) result }
{
    let mut set: u64 = 0;
    for t in &step[..count] {
        set |= sets[at + usize::from(*t)];
    }
    set
}

// Whether some place of a set has a token, or is empty, as is asked.
fn some_place(marking: &[u32; MARKING], set: u64, filled: bool) -> bool
    requires { Within32 set }
    ensures { SomePlace marking.now set filled result }
{
    for p in members(set) {
        if (0 < marking[p]) == filled {
            return true;
        }
    }
    false
}

// Whether some place has fewer tokens than the step needs there: those that its events take, and one where one of them
// reads it (24).
fn short(
    step: &[u8; STEP],
    count: usize,
    sets: &[u64; SETS],
    marking: &[u32; MARKING],
    places: usize,
) -> bool
    requires { IsStep step.now count × (places ≤ 32) × Within 32 sets.now }
    ensures { IsShort step.now count sets.now marking.now places result }
{
    let mut taken = [0u32; MARKING];
    add_all(step, count, sets, 0, &mut taken, 0);
    if falls(marking, &taken, places) {
        return true;
    }
    some_place(marking, joined(step, count, sets, READ), false)
}

// A step of line `line`, of known transitions, judged at a marking: 24 and 25.
pub fn judge(
    step: &[u8; STEP],
    count: usize,
    sets: &[u64; SETS],
    marking: &[u32; MARKING],
    places: usize,
    line: usize,
) -> Result<(), StepRefusal>
    requires { IsStep step.now count × (places ≤ 32) × Within 32 sets.now }
    ensures { Judges step.now count sets.now marking.now places line result }
{
    if short(step, count, sets, marking, places) {
        return Err(StepRefusal::TooFewTokens(line));
    }
    if some_place(marking, joined(step, count, sets, GUARDS), true) {
        return Err(StepRefusal::Inhibited(line));
    }
    Ok(())
}

// The marking after a step that is enabled: what its events take is taken first, and then what they make is there.
pub fn play(step: &[u8; STEP], count: usize, sets: &[u64; SETS], marking: &mut [u32; MARKING])
    requires { IsStep step.now count × Playable sets.now (take count step.now) marking.old }
    ensures { MovedBy sets.now (take count step.now)
        marking.old marking.new }
{
    take_all(step, count, sets, marking);
    add_all(step, count, sets, MADE, marking, 0);
}

// The token counts of a net, put into an array from `at` on.
pub fn put_tokens(tokens: &[u16; TOKENS], counts: &mut [u32], at: usize)
    requires { at + marking_long ≤ length counts.old }
    ensures { MappedFrom counts.old at marking_long (λ p. get_or tokens.now p 0)
        counts.new }
{
    for (p, k) in tokens.iter().enumerate() {
        counts[at + p] = u32::from(*k);
    }
}
