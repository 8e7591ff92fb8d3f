// What the closed order in rows of bits says of strict pairs: its loops, and how many events each is strictly before.
#![tactic(auto)]

ghost use Rattle.std.specs.Prelude.{◌≡◌, ◌<◌, ◌≤◌};
ghost use Rattle.lists.specs.Lowest.{Lowest};
ghost use Rattle.row_facts.specs.Pairs.{on_cycle};
ghost use Rattle.reach.specs.Rows.{cell_of, Good};
ghost use Rattle.order.specs.Below.{sum_below};
ghost use Rattle.row_facts.specs.Strictly.{strictly};
ghost use Rattle.row_facts.specs.Counts.{Ready};

use reach::{WORDS, row_at};

// Whether e is strictly before itself.
fn looped(w: &[u64; WORDS], e: usize) -> bool
    requires { (e < 128) × Good w.now }
    ensures { result ≡ on_cycle (cell_of w.now) e }
{
    row_at(w, e).strict.holds(e)
}

// The lowest event that is strictly before itself, if there is one.
pub fn first_loop(w: &[u64; WORDS], n: usize) -> Option<usize>
    requires { (n ≤ 128) × Good w.now }
    ensures { Lowest (on_cycle (cell_of w.now)) n result }
{
    (0..n).find(|e| looped(w, *e))
}

// How many of the n events e is strictly before.
pub fn followers(w: &[u64; WORDS], n: usize, e: usize) -> usize
    requires { (e < n) × Ready n w.now }
    ensures { (result ≡ sum_below n (strictly (cell_of w.now) e)) × (result ≤ 128) }
{
    row_at(w, e).strict.size()
}
