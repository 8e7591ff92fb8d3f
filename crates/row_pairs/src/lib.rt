// The pairs of a record, from its bytes and words, in rows of bits.
#![tactic(auto)]

ghost use Rattle.std.specs.Prelude.{◌≡◌, ℕ, ◌*◌, ◌+◌, ◌<◌, ◌≤◌, length};
ghost use Rattle.bit_sets.specs.Sets.{has};
ghost use Rattle.reach.specs.Rows.{words, Good, Sub, row_of};
ghost use Rattle.record_columns.specs.Layout.{conditions_most, condition_words, record_bytes};
ghost use Rattle.row_pairs.specs.Relation.{pair_in, befores_in, afters_in, sides_in, condition_pair_in, guard_pair_in};
ghost use Rattle.row_pairs.specs.Relation.{read_pair_in, mark_pair_in, overall, Raised};

use bit_sets::Set;
use reach::{Row, WORDS, put_row, raise, row_at, row_in};
use record_columns::{CONSUMERS, EVENTS, GUARD_SLOT, PRODUCERS, READ_SLOT, mark_row};

// The entry of e and f is that of a strict pair, where both are events.
fn raise_pair(w: &mut [u64; WORDS], e: usize, f: usize)
    requires { (length w.old ≡ words) × Good w.old }
    ensures { Raised w.old (pair_in e f 2) w.new }
{
    if EVENTS <= e {
        return;
    }
    if EVENTS <= f {
        return;
    }
    raise(w, e, f, true);
}

// The pairs of the conditions.
pub fn raise_conditions(rec: &[u8], m: usize, w: &mut [u64; WORDS])
    requires { (m ≤ conditions_most) × (record_bytes ≤ length rec.now) × (length w.old ≡ words) × Good w.old }
    ensures { Raised w.old (overall (condition_pair_in rec.now) m) w.new }
{
    for c in 0..m {
        raise_pair(w, rec[PRODUCERS + c] as usize, rec[CONSUMERS + c] as usize);
    }
}

// A strict pair of f and each event of a set, where f is an event: the set joins the row of f.
fn raise_afters(w: &mut [u64; WORDS], f: usize, set: Set)
    requires { (length w.old ≡ words) × Good w.old }
    ensures { Raised w.old (afters_in f (has set)) w.new }
{
    if EVENTS <= f {
        return;
    }
    let row = row_at(w, f);
    let path = row.path.union(set);
    let strict = row.strict.union(set);
    put_row(w, f, Row { path, strict });
}

// A weak pair of each event of a set and f, where f is an event.
fn raise_befores(w: &mut [u64; WORDS], f: usize, set: Set)
    requires { (length w.old ≡ words) × Good w.old }
    ensures { Raised w.old (befores_in f (has set)) w.new }
{
    if EVENTS <= f {
        return;
    }
    for e in set.members() {
        raise(w, e, f, false);
    }
}

// A strict pair of f and each event of a set, and a weak pair of each event of another one and g.
fn raise_sides(w: &mut [u64; WORDS], f: usize, after: Set, g: usize, before: Set)
    requires { (length w.old ≡ words) × Good w.old }
    ensures { Raised w.old (sides_in f (has after) g (has before)) w.new }
{
    if after.union(before).is_none() {
        return;
    }
    raise_afters(w, f, after);
    raise_befores(w, g, before);
}

// The pairs of the marks B and A at condition c.
fn raise_guards(rec: &[u8], marks: &[u64], c: usize, w: &mut [u64; WORDS])
    requires { (c < conditions_most) × (record_bytes ≤ length rec.now)
        × (condition_words * c + condition_words ≤ length marks.now) × ((i : ℕ) → Sub (row_of marks.now i))
        × (length w.old ≡ words) × Good w.old }
    ensures { Raised w.old (guard_pair_in rec.now marks.now c) w.new }
{
    let row = row_in(marks, mark_row(c, GUARD_SLOT));
    let consumer = rec[CONSUMERS + c] as usize;
    let producer = rec[PRODUCERS + c] as usize;
    raise_sides(w, consumer, row.strict, producer, row.path.less(row.strict));
}

// The pairs of the marks R at condition c: its producer is strictly before each reader, and each reader not later than
// its consumer (02, 2026-01).
fn raise_reads(rec: &[u8], marks: &[u64], c: usize, w: &mut [u64; WORDS])
    requires { (c < conditions_most) × (record_bytes ≤ length rec.now)
        × (condition_words * c + condition_words ≤ length marks.now) × ((i : ℕ) → Sub (row_of marks.now i))
        × (length w.old ≡ words) × Good w.old }
    ensures { Raised w.old (read_pair_in rec.now marks.now c) w.new }
{
    let row = row_in(marks, mark_row(c, READ_SLOT));
    let producer = rec[PRODUCERS + c] as usize;
    let consumer = rec[CONSUMERS + c] as usize;
    raise_sides(w, producer, row.path, consumer, row.path);
}

// The pairs of the marks.
pub fn raise_marks(rec: &[u8], marks: &[u64], m: usize, w: &mut [u64; WORDS])
    requires { (m ≤ conditions_most) × (record_bytes ≤ length rec.now)
        × (condition_words * m ≤ length marks.now) × ((i : ℕ) → Sub (row_of marks.now i))
        × (length w.old ≡ words) × Good w.old }
    ensures { Raised w.old (overall (mark_pair_in rec.now marks.now) m)
        w.new }
{
    for c in 0..m {
        raise_guards(rec, marks, c, w);
        raise_reads(rec, marks, c, w);
    }
}
