// A line of a log as a step: read, counted, and judged at a marking.
#![tactic(auto)]

ghost use Rattle.std.specs.Prelude.{◌≡◌, ◌≤◌, ◌<◌, length};
ghost use Rattle.spec.specs.Text.{Line};
ghost use Rattle.lines.specs.Lines.{line_of, EndedTo};
ghost use Rattle.arc_sets.specs.Sets.{Within};
ghost use Rattle.steps.specs.Judged.{step_answer, count_step};
ghost use Rattle.step_lines.specs.Lines.{Readable, ReadLine, ReadAt, HasStep, JudgesLine, LineAt};

use arc_sets::SETS;
use byte_classes::Table;
use byte_entries::LETTER_S;
use lines::{Cursor, line_at};
use number_lines::{any_unknown, count_numbers, is_step_line, list_at, numbers};
use steps::{MARKING, Position, STEP, StepRefusal, judge};

// The events that a run may have.
const MOST_EVENTS: usize = 128;

// How many events a line has, or why it is refused, and where the next line starts.
#[derive(Clone, Copy, Debug, PartialEq, Eq)]
pub struct StepLine {
    pub events: Result<usize, StepRefusal>,
    pub next: usize,
}

// Any line, read: 21 and 22. Its transitions go into an array, if it has room for them; their number is told.
fn any_line(
    table: &Table,
    l: &[u8],
    ended: bool,
    x: Position,
    step: &mut [u8; STEP],
) -> Result<usize, StepRefusal>
    requires { Readable x step.old }
    ensures { ReadLine (line_of l.now ended) x result step.new }
{
    if !is_step_line(table, l, ended) {
        return Err(StepRefusal::Malformed(x.line));
    }
    if any_unknown(table, l, x.transitions) {
        return Err(StepRefusal::UnknownTransition(x.line));
    }
    let count = count_numbers(table, l);
    if count <= STEP {
        *step = numbers(table, l);
    }
    Ok(count)
}

// The line at a cursor, read: a plain one, where a line end is ahead, is read in one walk.
pub fn read_step(
    table: &Table,
    log: &[u8],
    c: Cursor,
    x: Position,
    step: &mut [u8; STEP],
) -> StepLine
    requires { (c.at < length log.now) × EndedTo log.now c.ended
        × Readable x step.old }
    ensures { ReadAt log.now c.at x result step.new }
{
    let at = c.at;
    if at < c.ended {
        let plain = list_at(table, LETTER_S, log, at, step);
        if at < plain.next {
            if x.transitions <= plain.high {
                return StepLine {
                    events: Err(StepRefusal::UnknownTransition(x.line)),
                    next: plain.next,
                };
            }
            return StepLine {
                events: Ok(plain.count),
                next: plain.next,
            };
        }
    }
    let any = line_at(table, log, at);
    let end = any.end;
    StepLine {
        events: any_line(table, &log[at..end], any.ended, x, step),
        next: any.next,
    }
}

// So many events more: 23.
pub fn count_step(x: Position, count: usize) -> Result<(), StepRefusal>
    requires { x.events ≤ 128 }
    ensures { step_answer result ≡ count_step x.line x.events count }
{
    if MOST_EVENTS - x.events < count {
        return Err(StepRefusal::OverEvents(x.line));
    }
    Ok(())
}

// A line that was read, counted and judged at a marking: 23 to 25 where it was not refused.
fn judge_events(
    read: Result<usize, StepRefusal>,
    step: &[u8; STEP],
    sets: &[u64; SETS],
    x: Position,
    marking: &[u32; MARKING],
) -> Result<usize, StepRefusal>
    requires { (x.events ≤ 128) × (x.places ≤ 32) × Within 32 sets.now × HasStep read step.now }
    ensures { (l : Line) → ReadLine l x read step.now → JudgesLine l sets.now x marking.now result step.now }
{
    let count = read?;
    count_step(x, count)?;
    judge(step, count, sets, marking, x.places, x.line)?;
    Ok(count)
}

// The line at a cursor, at a marking: 21 to 25.
pub fn judge_line(
    table: &Table,
    log: &[u8],
    c: Cursor,
    sets: &[u64; SETS],
    x: Position,
    marking: &[u32; MARKING],
    step: &mut [u8; STEP],
) -> StepLine
    requires { (c.at < length log.now) × EndedTo log.now c.ended
        × Readable x step.old × (x.places ≤ 32) × Within 32 sets.now }
    ensures { LineAt log.now c.at sets.now x marking.now
        result step.new }
{
    let read = read_step(table, log, c, x, step);
    StepLine {
        events: judge_events(read.events, step, sets, x, marking),
        next: read.next,
    }
}
