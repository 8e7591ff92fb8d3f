// Replaying an arrangement, from its texts to its rows.
#![tactic(auto)]

ghost use Rattle.std.specs.Prelude.{◌≡◌, length};
ghost use Rattle.spec.specs.Replaying.{replay};
ghost use Rattle.replaying.specs.Replaying.{Replays};
ghost use Rattle.replaying.specs.declared.ReplayRefusal.TheVariants.{Refused, Lines};

use accepting::{Refusal, accept, bench};
use arrangement_reader::{ArrangementRefusal, LINED};
use byte_slices::bytes_at;
use marking_rows::{ROWS, put_rows};
use net::{ARCS, TOKENS};
use played_lines::judge_lines;
use reach::WORDS;
use record_columns::RECORD;

// Why there is no replay: the buffer is short, the net or the record is refused, or the arrangement is.
#[derive(Clone, Copy, Debug, PartialEq, Eq)]
pub enum ReplayRefusal {
    BufferShort,
    Refused(Refusal),
    Lines(ArrangementRefusal),
}

impl From<Refusal> for ReplayRefusal {
    ghost from_gives = { λ e r. r ≡ Refused e };

    fn from(why: Refusal) -> ReplayRefusal {
        ReplayRefusal::Refused(why)
    }
}

impl From<ArrangementRefusal> for ReplayRefusal {
    ghost from_gives = { λ e r. r ≡ Lines e };

    fn from(why: ArrangementRefusal) -> ReplayRefusal {
        ReplayRefusal::Lines(why)
    }
}

// "Replay: 40 under 4,128 counts (spot 0); net's; check's but 30; ..": an arrangement of the record in a text, over the
// net in another, is judged, and the marking after each of its lines is written; the answer is how many lines it has. On
// a refusal nothing is written.
pub fn replay(
    net: &[u8],
    text: &[u8],
    arrangement: &[u8],
    out: &mut [u16],
) -> Result<usize, ReplayRefusal>
    ensures { Replays (replay net.now text.now arrangement.now
        (length out.old)) out.old result out.new }
{
    if out.len() < ROWS {
        return Err(ReplayRefusal::BufferShort);
    }
    let mut tokens = [0u16; TOKENS];
    let mut arcs = [0u8; ARCS];
    let mut rec = [0u8; RECORD];
    let mut w = [0u64; WORDS];
    let accepted = accept(net, text, bench(), &mut tokens, &mut arcs, &mut rec, &mut w)?;
    let mut lined = [0u8; LINED];
    let lines = judge_lines(accepted.events, &w, arrangement, &mut lined)?;
    let trans = bytes_at(&rec, 0);
    put_rows(out, &tokens, &arcs, accepted.places, &trans, &lined, lines);
    Ok(lines)
}
