// The summary of a record: the line that the program prints behind it.
#![tactic(auto)]

ghost use Rattle.std.specs.Prelude.{◌≡◌, ◌+◌, ◌≤◌, length};
ghost use Rattle.spec.specs.Arranging.{line_count};
ghost use Rattle.order.specs.Order.{Order};
ghost use Rattle.reach.specs.Rows.{cell_of};
ghost use Rattle.row_facts.specs.Counts.{Ready};
ghost use Rattle.arranging.specs.Answers.{levels_in};
ghost use Rattle.representation.specs.Noted.{Noted};
ghost use Rattle.summary.specs.Summaries.{summary_bytes, Counted};

use accepting::order;
use arrangement_writer::line_count;
use reach::WORDS;
use record_columns::{Counts, EVENTS};
use row_independence::independent_pairs;
use row_levels::levels;
use spec::Field;
use writing::put_line;

// How many lines the arrangement of n events has, by the rows of their closed order.
fn lines_of(w: &[u64; WORDS], n: usize) -> usize
    requires { Ready n w.now × Order n (cell_of w.now) }
    ensures { result ≡ line_count (levels_in n w.now) }
{
    let mut a = [0u8; EVENTS];
    levels(w, n, &mut a);
    line_count(&a[0..n])
}

// `Z,events,conditions,pairs,lines` from n on, of the record that the bytes and words hold: no text is read.
pub fn put_counts(s: Counts, rec: &[u8], marks: &[u64], out: &mut [u8], n: usize) -> usize
    requires { (n + summary_bytes ≤ length out.old) × Noted s rec.now marks.now }
    ensures { Counted s rec.now marks.now n out.old result out.new }
{
    let mut w = [0u64; WORDS];
    let _low = order(s, rec, marks, &mut w);
    let events = s.events;
    let fields = [
        Field::Number(events),
        Field::Number(s.conditions),
        Field::Number(independent_pairs(&w, events)),
        Field::Number(lines_of(&w, events)),
    ];
    put_line(out, n, b'Z', &fields)
}
