// All lines of an arrangement, judged: read by 41 to 43, then held to the order by 44, then to 45.
#![tactic(auto)]

ghost use Rattle.std.specs.Prelude.{◌≡◌, ◌≤◌, replicate};
ghost use Rattle.reach.specs.Rows.{Good};
ghost use Rattle.marking_rows.specs.Rows.{lined_size};
ghost use Rattle.played_lines.specs.Lines.{JudgesLines};

use arrangement_reader::{ArrangementRefusal, LINED, STANDS, finish, first_broken, read_lines};
use reach::WORDS;

// The lines of a text, of the n events whose closed order is in the rows of bits w. Where they are an arrangement,
// the answer is how many they are, and the array has them: their events one after the other, and at 128 + k how many the first k lines have.
pub fn judge_lines(
    n: usize,
    w: &[u64; WORDS],
    text: &[u8],
    lined: &mut [u8; LINED],
) -> Result<usize, ArrangementRefusal>
    requires { (n ≤ 128) × Good w.now × (lined.old ≡ replicate lined_size 0) }
    ensures { JudgesLines n w.now text.now result lined.new }
{
    let mut stands = [0u8; STANDS];
    let read = read_lines(text, n, &mut stands, lined);
    if let Some(line) = first_broken(w, n, &stands, lined, read.lines) {
        return Err(ArrangementRefusal::Broken(line));
    }
    if let Some(refusal) = read.refused {
        return Err(refusal);
    }
    finish(&stands, n, read.lines)
}
