// Accepting a net and a record: what check, replay, arrange and energy share, "net's; check's but 30".
#![tactic(auto)]

ghost use Rattle.std.specs.Prelude.{◌≡◌, ◌≤◌, length};
ghost use Rattle.spec.specs.Record.{bench};
ghost use Rattle.net.specs.NetArrays.{net_at};
ghost use Rattle.net_reader.specs.Reads.{Blank as NetBlank};
ghost use Rattle.record_columns.specs.Enters.{Room, Spans};
ghost use Rattle.record_reader.specs.Reads.{Blank as RecordBlank};
ghost use Rattle.representation.specs.Held.{Sound};
ghost use Rattle.accepting.specs.declared.Refusal.TheVariants.{Net, Record};
ghost use Rattle.accepting.specs.Relation.{Blank};
ghost use Rattle.accepting.specs.Accepting.{Within, NetHeld, Orders, Judges, AcceptsRecord, Accepts, Keeps};
ghost use Rattle.record_columns.specs.Layout.{record_bytes};

use arc_rules::{wrong_arcs, wrong_initial};
use mark_rules::{wrong_kind, wrong_marks};
use net::{ARCS, NetRefusal, TOKENS};
use net_reader::read_into;
use reach::{WORDS, close};
use record_columns::{Bounds, Counts, MARK_WORDS, RecordRefusal};
use record_reader::read_record;
use row_facts::first_loop;
use row_pairs::{raise_conditions, raise_marks};
use spec::Limits;

// A short text, by its bytes, and the words for the marks of the few conditions that it has: eight for each, whose line
// has eight bytes or more.
const SHORT_TEXT: usize = 512;

const SHORT_MARKS: usize = 512;

// Why a net and a record are not accepted: the net, or the record under it.
#[derive(Clone, Copy, Debug, PartialEq, Eq)]
pub enum Refusal {
    Net(NetRefusal),
    Record(RecordRefusal),
}

impl From<NetRefusal> for Refusal {
    ghost from_gives = { λ e r. r ≡ Net e };

    fn from(why: NetRefusal) -> Refusal {
        Refusal::Net(why)
    }
}

impl From<RecordRefusal> for Refusal {
    ghost from_gives = { λ e r. r ≡ Record e };

    fn from(why: RecordRefusal) -> Refusal {
        Refusal::Record(why)
    }
}

// The counts of a net and a record that are accepted. The net, the record's bytes and its closed order are in what was
// lent.
#[derive(Clone, Copy, Debug, PartialEq, Eq)]
pub struct Accepted {
    pub places: usize,
    pub transitions: usize,
    pub events: usize,
    pub conditions: usize,
}

// The limits of the bench.
pub fn bench() -> Limits
    ensures { (result ≡ bench) × Within result }
{
    Limits {
        events: 128,
        conditions: 512,
        marks: 4096,
    }
}

// ---- the rules 35 to 39

// 39: empty rows get the pairs of the marks and the conditions and are closed; the lowest event that is strictly before
// itself, if there is one.
pub fn order(s: Counts, rec: &[u8], marks: &[u64], w: &mut [u64; WORDS]) -> Option<usize>
    requires { Sound s rec.now × Spans s marks.now × Blank w.old }
    ensures { (length w.new ≡ length w.old)
        × Orders s rec.now marks.now result w.new }
{
    raise_marks(rec, marks, s.conditions, w);
    raise_conditions(rec, s.conditions, w);
    close(w, s.events);
    first_loop(w, s.events)
}

// ---- accepting

// The rules 35 to 39, each over the whole record before the next. Where none is broken the closed order is in the rows.
// The net's arrays and the record's columns go by themselves: each rule takes some of them, and none takes all.
fn judge(
    b: Bounds,
    tokens: &[u16; TOKENS],
    arcs: &[u8; ARCS],
    s: Counts,
    rec: &[u8],
    marks: &[u64],
    w: &mut [u64; WORDS],
) -> Result<(), RecordRefusal>
    requires { Room b × Sound s rec.now × Spans s marks.now × Blank w.old }
    ensures { (length w.new ≡ length w.old)
        × Judges (net_at b.places b.transitions tokens.now arcs.now)
        s rec.now marks.now result w.new }
{
    let places = b.places;
    if let Some(p) = wrong_initial(places, tokens, s, rec) {
        return Err(RecordRefusal::WrongInitial(p));
    }
    if let Some(e) = wrong_arcs(places, arcs, s, rec) {
        return Err(RecordRefusal::WrongArcs(e));
    }
    if let Some(e) = wrong_marks(places, b.transitions, arcs, s, rec, marks) {
        return Err(RecordRefusal::WrongMarks(e));
    }
    if let Some(e) = wrong_kind(s, rec, marks) {
        return Err(RecordRefusal::WrongKind(e));
    }
    if let Some(e) = order(s, rec, marks, w) {
        return Err(RecordRefusal::BeforeItself(e));
    }
    Ok(())
}

// A record is read and judged by the net that the arrays hold, in words for its marks that are all zero before.
fn accept_record(
    b: Bounds,
    text: &[u8],
    tokens: &[u16; TOKENS],
    arcs: &[u8; ARCS],
    rec: &mut [u8],
    marks: &mut [u64],
    w: &mut [u64; WORDS],
) -> Result<Accepted, Refusal>
    requires { Room b × NetHeld b tokens.now arcs.now × (record_bytes ≤ length rec.old)
        × RecordBlank text.now marks.old × Blank w.old }
    ensures { (length w.new ≡ length w.old)
        × AcceptsRecord b text.now tokens.now arcs.now result
        rec.new w.new }
{
    let s = read_record(b, text, rec, marks)?;
    judge(b, tokens, arcs, s, rec, marks, w)?;
    Ok(Accepted {
        places: b.places,
        transitions: b.transitions,
        events: s.events,
        conditions: s.conditions,
    })
}

// "net's; check's but 30": a net and a record, the net in arrays that are all zero before, and the closed order in the
// rows, or the first refusal. A short text has few conditions and needs few words for marks.
pub fn accept(
    net: &[u8],
    text: &[u8],
    limits: Limits,
    tokens: &mut [u16; TOKENS],
    arcs: &mut [u8; ARCS],
    rec: &mut [u8],
    w: &mut [u64; WORDS],
) -> Result<Accepted, Refusal>
    requires { Within limits × NetBlank tokens.old arcs.old × (record_bytes ≤ length rec.old) × Blank w.old }
    ensures { (length w.new ≡ length w.old)
        × Accepts limits net.now text.now result w.new
        × Keeps limits net.now text.now result
        tokens.new arcs.new rec.new }
{
    let size = read_into(net, tokens, arcs)?;
    let b = Bounds {
        limits,
        places: size.places,
        transitions: size.transitions,
    };
    if text.len() <= SHORT_TEXT {
        let mut marks = [0u64; SHORT_MARKS];
        return accept_record(b, text, tokens, arcs, rec, &mut marks, w);
    }
    let mut marks = [0u64; MARK_WORDS];
    accept_record(b, text, tokens, arcs, rec, &mut marks, w)
}
