// The history of a run, held by arrays: its events and its conditions, grown step by step.
#![tactic(auto)]

ghost use Rattle.std.specs.Prelude.{◌≡◌, ◌+◌, ◌≤◌, ◌<◌, length, take};
ghost use Rattle.arc_sets.specs.Sets.{Within};
ghost use Rattle.run_counts.specs.Tally.{StepEvents};
ghost use Rattle.spec.specs.Lists.{sum};
ghost use Rattle.spec.specs.Building.{initial_of};
ghost use Rattle.conditions.specs.Conditions.{made_next, MadeAt};
ghost use Rattle.history.specs.HistoryColumns.{AddedAt, Growable, GrownAt};
ghost use Rattle.record_columns.specs.Layout.{record_bytes};

use arc_sets::SETS;
use conditions::{Extent, make_step, make_times, take_step};
use net::TOKENS;
use record_columns::{EVENTS, NO_EVENT};
use run_counts::COUNTS;

// The events of step k are put behind the first n.
fn add_events(k: usize, step: &[u8], n: usize, rec: &mut [u8], steps: &mut [u8; EVENTS])
    requires { (k < 256) × (n + length step.now ≤ 128)
        × (record_bytes ≤ length rec.old) × (length steps.old ≡ 128) }
    ensures { AddedAt k step.now n rec.old steps.old
        (n + length step.now) rec.new steps.new }
{
    for (i, &t) in step.iter().enumerate() {
        rec[n + i] = t;
        steps[n + i] = k as u8;
    }
}

// The history after a step, in the lent arrays; how many conditions it has.
pub fn grow(
    step: &[u8],
    sets: &[u64; SETS],
    x: Extent,
    rec: &mut [u8],
    steps: &mut [u8; EVENTS],
    counts: &mut [u32; COUNTS],
) -> usize
    requires { StepEvents step.now × Within 32 sets.now
        × Growable (length step.now) (length (made_next sets.now step.now x)) x rec.old steps.old counts.old }
    ensures { GrownAt step.now (length step.now) sets.now x
        rec.old steps.old counts.old
        result rec.new steps.new counts.new }
{
    add_events(x.line, step, x.events, rec, steps);
    take_step(step, sets, x, rec, counts);
    make_step(step, sets, x, rec)
}

// The conditions of the initial marking, by place; how many there are.
pub fn start(tokens: &[u16; TOKENS], m: usize, rec: &mut [u8]) -> usize
    requires { (m ≤ 32) × (length tokens.now ≡ 32) × (sum (take m tokens.now) ≤ 512)
        × (record_bytes ≤ length rec.old) }
    ensures { MadeAt (initial_of 0 (take m tokens.now)) 0 rec.old result rec.new }
{
    let mut r: usize = 0;
    for (p, &count) in tokens[..m].iter().enumerate() {
        r = make_times(NO_EVENT, p, usize::from(count), r, rec);
    }
    r
}
