// Sets of events in words, one behind the other: two words for each set.
#![tactic(auto)]

ghost use Rattle.std.specs.Prelude.{◌≡◌, ◌+◌, ◌*◌, ◌≤◌, length};
ghost use Rattle.set_rows.specs.Sets.{words_of_set, set_of, PutSet};

use bit_sets::Set;

// The words of a set, and where its high word stands in it.
const SET: usize = 2;

const HIGH: usize = 1;

// The words of all sets that events are sorted into, one set for each number up to 128.
pub const SET_WORDS: usize = 258;

// Set s of words that have it, whatever else they have.
pub fn set_at(w: &[u64], s: usize) -> Set
    requires { words_of_set * s + words_of_set ≤ length w.now }
    ensures { result ≡ set_of w.now s }
{
    Set {
        lo: w[SET * s],
        hi: w[SET * s + HIGH],
    }
}

pub fn put_set(w: &mut [u64], s: usize, a: Set)
    requires { words_of_set * s + words_of_set ≤ length w.old }
    ensures { PutSet w.old s a w.new }
{
    w[SET * s] = a.lo;
    w[SET * s + HIGH] = a.hi;
}
