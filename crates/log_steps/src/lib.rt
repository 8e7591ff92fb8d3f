// One step of a log that is enabled, built on the run that the steps before it left.
#![tactic(auto)]

ghost use Rattle.std.specs.Prelude.{◌≡◌};
ghost use Rattle.log_steps.specs.declared.LogRefusal.TheVariants.{Step};
ghost use Rattle.log_steps.specs.RunArrays.{Buildable, BuiltOn};

use arc_sets::{GUARDS, MADE, READ, SETS};
use conditions::Extent;
use history::grow;
use record_columns::EVENTS;
use run_counts::{COUNTS, WATCHED, own_all, products, sizes_all};
use steps::{STEP, StepRefusal, add_all};

// The conditions and the marks that a record may have.
const MOST_CONDITIONS: usize = 512;

const MOST_MARKS: usize = 4096;

// What a log is refused for: a line as a step, or that its record would be too large; with its line.
#[derive(Clone, Copy, Debug, PartialEq, Eq)]
pub enum LogRefusal {
    Step(StepRefusal),
    OverConditions(usize),
    OverMarks(usize),
}

impl From<StepRefusal> for LogRefusal {
    ghost from_gives = { λ why e. e ≡ Step why };

    fn from(why: StepRefusal) -> LogRefusal {
        LogRefusal::Step(why)
    }
}

// The next step, which is enabled, is built: 26 and 27. The marks are B and A, by place and without those at what an
// event made itself, and R, one for each place that an event reads (02, 2026-01). A refusal says nothing of the arrays that
// hold the run.
pub fn build_step(
    step: &[u8; STEP],
    count: usize,
    sets: &[u64; SETS],
    x: Extent,
    rec: &mut [u8],
    steps: &mut [u8; EVENTS],
    counts: &mut [u32; COUNTS],
) -> Result<Extent, LogRefusal>
    requires { Buildable step.now count sets.now x rec.old steps.old counts.old }
    ensures { BuiltOn step.now count sets.now x
        rec.old steps.old counts.old
        result rec.new steps.new counts.new }
{
    let events = &step[..count];
    if MOST_CONDITIONS < x.conditions + sizes_all(events, sets, MADE) {
        return Err(LogRefusal::OverConditions(x.line));
    }
    add_all(step, count, sets, MADE, counts, 0);
    add_all(step, count, sets, GUARDS, counts, WATCHED);
    let own = x.own + own_all(events, sets);
    let reads = x.reads + sizes_all(events, sets, READ);
    if MOST_MARKS + own < products(counts, x.places) + reads {
        return Err(LogRefusal::OverMarks(x.line));
    }
    let conditions = grow(events, sets, x, rec, steps, counts);
    Ok(Extent {
        line: x.line + 1,
        events: x.events + count,
        conditions,
        own,
        reads,
        ..x
    })
}
