// Sets of conditions, in rows of eight words: of each place those that stand in it, and of each transition those of the
// places that inhibit it.
#![tactic(auto)]

ghost use Rattle.std.specs.Prelude.{◌≡◌, length, ◌<◌};
ghost use Rattle.condition_sets.specs.Sets.{sets_size, whole_word, EmptyRow, JoinsRow, Placeable, Placed, InPlaces};
ghost use Rattle.condition_sets.specs.Sets.{WatchedBy, Watches, Ready, guards_of};

use arc_sets::{GUARDS, SETS};
use bit_sets::members;
use record_columns::PLACES;

// The words of the sets, one set for each place or for each transition; the words of a set, and the conditions of a
// word.
pub const WORDS: usize = 256;

pub const SET: usize = 8;

pub const WORD: usize = 64;

// The transitions whose sets can be known.
pub const KNOWN: usize = 32;

// The first n conditions, each in the set of its place: bit c % WORD of word c / WORD of the place's words.
pub fn enter_places(places: &mut [u64; WORDS], rec: &[u8], n: usize)
    requires { Placeable rec.now n places.old }
    ensures { Placed rec.now n places.new }
{
    for c in 0..n {
        let i = SET * (rec[PLACES + c] as usize) + c / WORD;
        places[i] = places[i] | (1 << (c % WORD));
    }
}

// The set of place p joins that of transition t.
fn join(watched: &mut [u64; WORDS], t: usize, places: &[u64; WORDS], p: usize)
    requires { (t < 32) × (p < 32) × (length watched.old ≡ sets_size) }
    ensures { JoinsRow watched.old t places.now p watched.new }
{
    for w in 0..SET {
        let i = SET * t + w;
        watched[i] = watched[i] | places[SET * p + w];
    }
}

// The set of transition t, which is empty yet: the conditions of the places that inhibit it.
fn watch(watched: &mut [u64; WORDS], t: usize, places: &[u64; WORDS], guards: u64)
    requires { (t < 32) × (length watched.old ≡ sets_size) × EmptyRow watched.old t × InPlaces guards }
    ensures { Watches guards places.now t whole_word watched.old watched.new }
{
    for p in members(guards) {
        join(watched, t, places, p);
    }
}

// The same, unless the set is known.
pub fn ready(
    watched: &mut [u64; WORDS],
    known: &mut [u8; KNOWN],
    t: usize,
    places: &[u64; WORDS],
    arcs: &[u64; SETS],
)
    requires { (t < 32) × InPlaces (guards_of arcs.now t) × Ready arcs.now places.now known.old watched.old }
    ensures { Ready arcs.now places.now known.new watched.new
        × WatchedBy (guards_of arcs.now t) places.now t whole_word watched.new }
{
    if known[t] == 0 {
        watch(watched, t, places, arcs[GUARDS + t]);
        known[t] = 1;
    }
}
