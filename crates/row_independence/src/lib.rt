// Independent pairs of the closed order in rows of bits: what the rows leave of all pairs.
#![tactic(auto)]

ghost use Rattle.std.specs.Prelude.{◌≡◌, ◌*◌, ◌<◌, ◌≤◌};
ghost use Rattle.order.specs.Order.{Order};
ghost use Rattle.reach.specs.Rows.{cell_of};
ghost use Rattle.row_facts.specs.Counts.{Ready};
ghost use Rattle.row_independence.specs.Pairs.{independent_pairs, synchronous_pairs};
ghost use Rattle.row_independence.specs.Alike.{ByRows, Counted};

use bit_sets::Set;
use reach::{WORDS, row_at};
use set_rows::{SET_WORDS, put_set, set_at};

// How many events below e are synchronous with it: each is not later than the other. Two such events are on a loop, in
// their own rows, and their rows are the same. So the events on loops are sorted by how many events their rows have, and
// of those sorted with e just the ones in e's row are synchronous with it: no event below e is looked at by itself. The
// sets have the events below e, and then e too.
fn synchronous_below(w: &[u64; WORDS], n: usize, e: usize, sets: &mut [u64; SET_WORDS]) -> usize
    requires { (e < n) × Ready n w.now × Order n (cell_of w.now) × ByRows n (cell_of w.now) e sets.old }
    ensures { Counted n (cell_of w.now) e result sets.new }
{
    let r = row_at(w, e);
    if !r.path.holds(e) {
        return 0;
    }
    let k = r.path.size();
    let alike = set_at(sets, k);
    put_set(sets, k, alike.union(Set::one(e)));
    alike.meet(r.path).size()
}

// How many pairs of the n events are synchronous.
fn synchronous_pairs(w: &[u64; WORDS], n: usize) -> usize
    requires { Ready n w.now × Order n (cell_of w.now) }
    ensures { (result ≡ synchronous_pairs n (cell_of w.now)) × (result ≤ 128 * n) }
{
    let mut sets = [0u64; SET_WORDS];
    let mut pairs = 0;
    for e in 0..n {
        pairs += synchronous_below(w, n, e, &mut sets);
    }
    pairs
}

// The number of independent pairs of the n events, two events of which neither is in the other's row: all pairs, less
// what is in the rows. A synchronous pair is there twice, and an event on a loop is in its own row: these are given back.
// Where no event is on a loop there is no synchronous pair, and no sets are made.
pub fn independent_pairs(w: &[u64; WORDS], n: usize) -> usize
    requires { Ready n w.now × Order n (cell_of w.now) }
    ensures { result ≡ independent_pairs n (cell_of w.now) }
{
    let mut all = 0;
    let mut ordered = 0;
    let mut loops = 0;
    for e in 0..n {
        let r = row_at(w, e);
        all += e;
        ordered += r.path.size();
        if r.path.holds(e) {
            loops += 1;
        }
    }
    if 0 < loops {
        let twice = synchronous_pairs(w, n);
        return all + loops + twice - ordered;
    }
    all - ordered
}
