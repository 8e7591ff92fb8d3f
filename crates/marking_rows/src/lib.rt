// The marking after each line of an arrangement: what its places had, what its events made and took, and the rows.
#![tactic(auto)]

ghost use Rattle.std.specs.Prelude.{◌+◌, ◌≤◌, length};
ghost use Rattle.lists.specs.Stretch.{MappedFrom};
ghost use Rattle.marking_rows.specs.Rows.{row_size, row_counts};
ghost use Rattle.marking_rows.specs.Rows.{Addable, AddsArcs, Begun, Playing, Plays, left_of, Playable, PutsRows};

use arrangement_reader::{ENDS, LINED};
use net::{ARCS, OUTPUTS};
use record_columns::EVENTS;

// The counts of a row, one for each place; so many arcs of a kind has each transition.
const ROW: usize = 32;

// The counts of all rows: the initial marking's, and those after up to 128 lines.
pub const ROWS: usize = 4128;

// The counts of the rows behind the first.
const LATER: usize = ROWS - ROW;

// Where an array of lines says how many events the first line has.
const NEXT_ENDS: usize = ENDS + 1;

// What each place had with what was made there, and what was taken there.
#[derive(Clone, Copy)]
struct PlaceSums {
    had: [u16; ROW],
    taken: [u16; ROW],
}

// The arcs of one transition, from a place of the array on, are added to the sums.
fn add_arcs(sums: &mut [u16; ROW], arcs: &[u8; ARCS], start: usize, places: usize)
    requires { Addable sums.old start places }
    ensures { AddsArcs sums.old arcs.now start places sums.new }
{
    for p in 0..places {
        sums[p] += u16::from(arcs[start + p]);
    }
}

// The events from one place of an array up to another make their outputs and take their inputs.
fn play(
    sums: &mut PlaceSums,
    arcs: &[u8; ARCS],
    places: usize,
    trans: &[u8; EVENTS],
    lined: &[u8; LINED],
    from: usize,
    to: usize,
)
    requires { Playing sums.old places trans.now lined.now from to }
    ensures { Plays places arcs.now trans.now lined.now from to
        sums.old sums.new }
{
    for e in &lined[from..to] {
        let t = usize::from(trans[usize::from(*e)]);
        add_arcs(&mut sums.had, arcs, OUTPUTS + ROW * t, places);
        add_arcs(&mut sums.taken, arcs, ROW * t, places);
    }
}

// A row is written: each place holds what it had, less what was taken.
fn put_row(out: &mut [u16], start: usize, sums: &PlaceSums)
    requires { start + row_size ≤ length out.old }
    ensures { MappedFrom out.old start row_size (left_of sums.now) out.new }
{
    for p in 0..ROW {
        out[start + p] = sums.had[p].saturating_sub(sums.taken[p]);
    }
}

// The sums before the first event.
fn begin(tokens: &[u16; ROW], places: usize) -> PlaceSums
    requires { places ≤ row_size }
    ensures { Begun tokens.now places result }
{
    let mut had = [0; ROW];
    had[..places].copy_from_slice(&tokens[..places]);
    PlaceSums {
        had,
        taken: [0; ROW],
    }
}

// So many counts from a place on are 0.
fn clear_from(out: &mut [u16], start: usize, n: usize)
    requires { start + n ≤ length out.old }
    ensures { MappedFrom out.old start n (λ p. 0) out.new }
{
    out[start..start + n].fill(0);
}

// Row 0 is the initial marking, and row k the one after line k of those in an array.
pub fn put_rows(
    out: &mut [u16],
    tokens: &[u16; ROW],
    arcs: &[u8; ARCS],
    places: usize,
    trans: &[u8; EVENTS],
    lined: &[u8; LINED],
    lines: usize,
)
    requires { (row_counts ≤ length out.old) × Playable places tokens.now trans.now lined.now lines }
    ensures { PutsRows places tokens.now arcs.now trans.now
        lined.now lines out.old out.new }
{
    let mut sums = begin(tokens, places);
    put_row(out, 0, &sums);
    for k in 0..lines {
        let from = usize::from(lined[ENDS + k]);
        let to = usize::from(lined[NEXT_ENDS + k]);
        play(&mut sums, arcs, places, trans, lined, from, to);
        put_row(out, ROW * (k + 1), &sums);
    }
    clear_from(out, ROW * lines + ROW, LATER - ROW * lines);
}
