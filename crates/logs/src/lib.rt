// The lines of a log, judged and played one after the other from the initial marking.
#![tactic(auto)]

ghost use Rattle.std.specs.Prelude.{◌≡◌};
ghost use Rattle.logs.specs.LogRun.{position_of, Begun, PlayedLog, Beginnable, BeginsAt};

use arc_sets::SETS;
use byte_classes::byte_table;
use conditions::Extent;
use history::start;
use lines::{Cursor, ended_to};
use log_steps::{LogRefusal, build_step};
use net::TOKENS;
use record_columns::EVENTS;
use run_counts::COUNTS;
use step_lines::judge_line;
use steps::{MARKING, Position, STEP, play, put_tokens};

// How far the steps of a run have come. Not a From: both types are of crates below, and this is the one use.
fn position(x: Extent) -> Position
    ensures { result ≡ position_of x }
{
    Position {
        places: x.places,
        transitions: x.transitions,
        line: x.line,
        events: x.events,
    }
}

// The lines of a log are judged and played, from a run at the initial marking.
pub fn play_log(
    log: &[u8],
    sets: &[u64; SETS],
    x: Extent,
    rec: &mut [u8],
    steps: &mut [u8; EVENTS],
    counts: &mut [u32; COUNTS],
    marking: &mut [u32; MARKING],
) -> Result<Extent, LogRefusal>
    requires { Begun sets.now x rec.old steps.old counts.old marking.old }
    ensures { PlayedLog log.now sets.now x
        rec.old steps.old counts.old marking.old
        result rec.new steps.new counts.new }
{
    let table = byte_table();
    let ended = ended_to(&table, log);
    let mut step = [0u8; STEP];
    let mut run = x;
    let mut at: usize = 0;
    // A while: the place in the log moves by what is read of it, which no range or iterator says.
    while at < log.len() {
        let here = Cursor {
            line: run.line,
            at,
            ended,
        };
        let line = judge_line(&table, log, here, sets, position(run), marking, &mut step);
        let count = line.events?;
        run = build_step(&step, count, sets, run, rec, steps, counts)?;
        play(&step, count, sets, marking);
        at = line.next;
    }
    Ok(run)
}

// The run at the initial marking, in arrays of which the counts by place are 0.
pub fn begin(
    tokens: &[u16; TOKENS],
    places: usize,
    transitions: usize,
    rec: &mut [u8],
    counts: &mut [u32; COUNTS],
    marking: &mut [u32; MARKING],
) -> Extent
    requires { Beginnable tokens.now places rec.old counts.old marking.old }
    ensures { BeginsAt tokens.now places transitions result rec.old
        rec.new counts.new marking.new }
{
    put_tokens(tokens, marking, 0);
    put_tokens(tokens, counts, 0);
    Extent {
        places,
        transitions,
        line: 1,
        events: 0,
        conditions: start(tokens, places, rec),
        own: 0,
        reads: 0,
    }
}
