// What is counted of a run: by place its conditions and the events that the place inhibits, and how many places its
// events read; so that its conditions and its marks are known without building them.
#![tactic(auto)]

ghost use Rattle.std.specs.Prelude.{◌≡◌, ◌*◌, ◌≤◌, ◌<◌, length};
ghost use Rattle.spec.specs.Lists.{sum_of, up_to};
ghost use Rattle.arc_sets.specs.Sets.{row_count, read_at, weight_at, Within};
ghost use Rattle.steps.specs.StepArrays.{Within32};
ghost use Rattle.run_counts.specs.Tally.{StepEvents, weighed, size_of, both_of, Countable, products_of};

use arc_sets::{GUARDS, MADE, SETS, WEIGHTS, size, weight};
use bit_sets::members;

// The counts by place: three for each.
pub const COUNTS: usize = 96;

// The counts by place stand in one array, 32 entries each: the conditions, the events that the place inhibits, and the
// first condition that may be free.
pub const WATCHED: usize = 32;

// The weights of the arcs of a row at the places of a set, added up: 32 places at most, of 16 tokens each at most.
fn weights_in(sets: &[u64; SETS], row: usize, set: u64) -> usize
    requires { (row < row_count) × Within32 set }
    ensures { (result ≡ sum_of (weighed sets.now row set) (up_to 64)) × (result ≤ 512) }
{
    let mut r: usize = 0;
    for p in members(set) {
        r += weight(sets, row, p);
    }
    r
}

// How many tokens the arcs of a row stand for. Where each weighs 1, as in a net without weights, that is how many
// places the row has, and no place is walked.
fn row_size(sets: &[u64; SETS], row: usize) -> usize
    requires { (row < row_count) × Within 32 sets.now }
    ensures { (result ≡ sum_of (weight_at sets.now row) (up_to 64)) × (result ≤ 512) }
{
    let set = sets[row];
    let at = WEIGHTS + 2 * row;
    if (sets[at] == 0) & (sets[at + 1] == 0) {
        return size(set);
    }
    weights_in(sets, row, set)
}

// How many tokens the arcs of the events of a step stand for, by the rows that start at `at`: how many conditions they
// make, and how many places they read, each of which has a mark of its own (02, 2026-01).
pub fn sizes_all(step: &[u8], sets: &[u64; SETS], at: usize) -> usize
    requires { StepEvents step.now × (at ≤ read_at) × Within 32 sets.now }
    ensures { (result ≡ sum_of (size_of sets.now at) step.now) × (result ≤ 512 * length step.now) }
{
    let mut r: usize = 0;
    for &t in step {
        r += row_size(sets, at + usize::from(t));
    }
    r
}

// How many conditions they make in places that inhibit them.
pub fn own_all(step: &[u8], sets: &[u64; SETS]) -> usize
    requires { StepEvents step.now × Within 32 sets.now }
    ensures { (result ≡ sum_of (both_of sets.now) step.now) × (result ≤ 512 * length step.now) }
{
    let mut r: usize = 0;
    for &id in step {
        let t = usize::from(id);
        r += weights_in(sets, MADE + t, sets[MADE + t] & sets[GUARDS + t]);
    }
    r
}

// In the first m places, the conditions times the events that the place inhibits, neither of which is more than 2,560.
pub fn products(counts: &[u32; COUNTS], m: usize) -> usize
    requires { Countable m counts.now }
    ensures { (result ≡ products_of counts.now m) × (result ≤ 6553600 * m) }
{
    let mut r: usize = 0;
    for p in 0..m {
        r += counts[p] as usize * counts[WATCHED + p] as usize;
    }
    r
}
