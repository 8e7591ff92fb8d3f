// The arcs of a net as sets of places: for each transition the places that it takes from, those that it makes tokens
// in, those that inhibit it and those that it reads, with a bit for each place; and with them the weights of the arcs
// (02, 2026-06). So a step walks the arcs that are there, and not every place.
#![tactic(auto)]

ghost use Rattle.std.specs.Prelude.{◌≡◌, ◌+◌, ◌-◌, ◌*◌, ◌%◌, ◌≤◌, ◌<◌, get_or, replicate};
ghost use Rattle.spec.specs.Lists.{sum_of, up_to};
ghost use Rattle.bit_sets.specs.Bits.{bit};
ghost use Rattle.arc_sets.specs.Sets.{set_count, row_count, more_at, RowSet, Puttable, RowPut, SetsOf};
ghost use Rattle.net.specs.NetArrays.{row_size, arc_count};

use bit_sets::members;
use net::{ARCS, ROW};

// All words: the sets of all kinds, by transition, and behind them the weights.
pub const SETS: usize = 384;

// Where the sets of the outputs, of the inhibitors and of the read places start, by transition; those of the inputs
// stand in front.
pub const MADE: usize = 32;

pub const GUARDS: usize = 64;

pub const READ: usize = 96;

// Where the weights start: two words for each set, with four bits for each place. They have by how much an arc weighs
// more than 1.
pub const WEIGHTS: usize = 128;

// How many places a set has.
pub fn size(set: u64) -> usize
    ensures { (result ≡ sum_of (bit set) (up_to 64)) × (result ≤ 64) }
{
    set.count_ones() as usize
}

// The set of the row that stands at `at`.
pub fn set_at(sets: &[u64; SETS], at: usize) -> u64
    requires { at < row_count }
    ensures { result ≡ get_or sets.now at 0 }
{
    sets[at]
}

// How many tokens the arc of a row at place p stands for, where there is one.
pub fn weight(sets: &[u64; SETS], row: usize, p: usize) -> usize
    requires { (row < row_count) × (p < 32) }
    ensures { (result ≡ 1 + more_at sets.now row p) × (result ≤ 16) }
{
    let word = sets[WEIGHTS + 2 * row + p / 16];
    let digit = (word >> (4 * (p % 16))) % 16;
    1 + digit as usize
}

// The places of a row of arcs, among the first m.
fn set_of(arcs: &[u8; ARCS], row: usize, m: usize) -> u64
    requires { (row + row_size ≤ arc_count) × (m ≤ 32) }
    ensures { RowSet arcs.now row m result }
{
    let mut set: u64 = 0;
    for p in 0..m {
        if 0 < arcs[row + p] {
            set |= 1 << p;
        }
    }
    set
}

// By how much an arc weighs more than 1.
fn more(cell: u8) -> u64
    requires { 0 < cell }
    ensures { result ≡ (cell - 1) % 16 }
{
    u64::from((cell - 1) % 16)
}

// A row of arcs, among the first m places: its set, and the weights of the places that are in it. A weight of 1 is there
// already.
fn put_row(sets: &mut [u64; SETS], arcs: &[u8; ARCS], row: usize, m: usize)
    requires { Puttable m row sets.old }
    ensures { RowPut arcs.now m row sets.old sets.new }
{
    let first = ROW * row;
    let set = set_of(arcs, first, m);
    sets[row] = set;
    for p in members(set) {
        let extra = more(arcs[first + p]);
        if extra != 0 {
            let i = WEIGHTS + 2 * row + p / 16;
            sets[i] = sets[i] | (extra << (4 * (p % 16)));
        }
    }
}

// The sets of the first n transitions, of each kind of arc, and their weights, in words that are all 0 before.
pub fn put_sets(sets: &mut [u64; SETS], arcs: &[u8; ARCS], m: usize, n: usize)
    requires { (m ≤ 32) × (n ≤ 32) × (sets.old ≡ replicate set_count 0) }
    ensures { SetsOf arcs.now m n sets.new }
{
    for t in 0..n {
        put_row(sets, arcs, t, m);
        put_row(sets, arcs, MADE + t, m);
        put_row(sets, arcs, GUARDS + t, m);
        put_row(sets, arcs, READ + t, m);
    }
}
