// The net reader: a text becomes a net of arrays, or a refusal.
#![tactic(auto)]

ghost use Rattle.std.specs.Prelude.{◌≡◌, true, ◌+◌, ◌≤◌, ◌<◌, length};
ghost use Rattle.columns.specs.Columns.{column};
ghost use Rattle.lines.specs.Lines.{EndedTo};
ghost use Rattle.net.specs.NetArrays.{kind_count, reads_at, inputs_in, outputs_in};
ghost use Rattle.net.specs.NetArrays.{offset_of, arrays_at, Fits, Few, Steps};
ghost use Rattle.plain_lines.specs.Plain.{Listed};
ghost use Rattle.net_reader.specs.Reads.{add_row, ArcEntry, ArcLetter, kind_by, ArcLineAt, AddsLetter, Blank, any_cell, lacks_of, Takes};
ghost use Rattle.net_reader.specs.Reads.{ReadsLines, Finishes, no_net, ReadsInto, Reads, ReadsNet, Answers};

use byte_classes::{Table, byte_table};
use byte_entries::{COMMA, LETTER_H, LETTER_I, LETTER_O, LETTER_P, LETTER_R, LETTER_T};
use digits::number_from;
use fields::row_of;
use line_forms::{Row, is_alone, is_one, is_triple, is_two, number_in};
use lines::{Cursor, Opening, ended_to, line_at, open_at, opens_with, past_ending};
use net::{
    ARCS, INHIBITORS, INPUTS, KIND, Net, NetRefusal, NetSize, OUTPUTS, READS, Size, TOKENS,
    add_arc, add_place, add_transition, arc_at,
};
use plain_lines::{alone_at, one_at};
use spec::Class;

// What a line declares is added.
fn add_row(
    k: usize,
    r: Row,
    s: Size,
    tokens: &mut [u16; TOKENS],
    arcs: &mut [u8; ARCS],
) -> Result<Size, NetRefusal>
    requires { Fits s }
    ensures { Steps s (arrays_at tokens.old arcs.old) (add_row k r) result
        (arrays_at tokens.new arcs.new) }
{
    let first = r.first;
    let second = r.second;
    let third = r.third;
    let a = number_in(first);
    let b = number_in(second);
    let w = number_in(third);
    if is_one(Class::LetterP, r) {
        return add_place(k, a, s, tokens);
    }
    if is_alone(Class::LetterT, r) {
        return add_transition(k, s);
    }
    if is_two(Class::LetterI, r) {
        return add_arc(INPUTS, k, a, b, 1, s, arcs);
    }
    if is_triple(Class::LetterI, r) {
        return add_arc(INPUTS, k, a, b, w, s, arcs);
    }
    if is_two(Class::LetterO, r) {
        return add_arc(OUTPUTS, k, b, a, 1, s, arcs);
    }
    if is_triple(Class::LetterO, r) {
        return add_arc(OUTPUTS, k, b, a, w, s, arcs);
    }
    if is_two(Class::LetterH, r) {
        return add_arc(INHIBITORS, k, a, b, 1, s, arcs);
    }
    if is_two(Class::LetterR, r) {
        return add_arc(READS, k, a, b, 1, s, arcs);
    }
    Err(NetRefusal::Malformed(k))
}

// The size after a line that was added, and where the next line starts.
#[derive(Clone, Copy)]
pub struct Took {
    pub size: Size,
    pub next: usize,
}

// Whether a line begins with the letter of one of the four kinds of arcs, and a comma.
fn arc_letter(o: Opening) -> bool
    ensures { result ≡ true → ArcLetter o }
{
    if o.behind != COMMA {
        return false;
    }
    if o.letter == LETTER_I {
        return true;
    }
    if o.letter == LETTER_O {
        return true;
    }
    if o.letter == LETTER_H {
        return true;
    }
    o.letter == LETTER_R
}

// Where the arcs of a letter's kind stand: those of the letters I, O and H one behind the other, as their entries do. It is
// computed and not chosen by branches, as it changes from line to line and no machine foresees it.
// A number and no enum: an enum that is told by a match made reading a long net slower by half.
fn arc_kind(letter: u8) -> usize
    requires { ArcEntry letter }
    ensures { result ≡ offset_of (kind_by letter) }
{
    if letter == LETTER_R {
        return READS;
    }
    let place = letter - LETTER_I;
    place as usize * KIND
}

// The two numbers of an arc's line, its weight, which is 1 where the line has none, and where the next line starts.
#[derive(Clone, Copy)]
pub struct ArcLine {
    pub first: usize,
    pub second: usize,
    pub weight: usize,
    pub next: usize,
}

// The arc's line that starts at a position with this letter, read in one walk. Only an input's and an output's line may
// have a third number, the weight (02, 2026-06).
fn arc_line_at(table: &Table, text: &[u8], at: usize, letter: u8) -> Option<ArcLine>
    requires { Listed text.now at }
    ensures { ArcLineAt text.now at letter result }
{
    let x = number_from(table, 4, text, at + 2);
    if x.stop != COMMA {
        return None;
    }
    let first = x.value;
    let y = number_from(table, 4, text, x.end + 1);
    let second = y.value;
    let next = past_ending(table, text, y.stop, y.end);
    if next != y.end {
        return Some(ArcLine {
            first,
            second,
            weight: 1,
            next,
        });
    }
    if (y.stop != COMMA) | (LETTER_H <= letter) {
        return None;
    }
    let z = number_from(table, 4, text, y.end + 1);
    let next = past_ending(table, text, z.stop, z.end);
    if next == z.end {
        return None;
    }
    Some(ArcLine {
        first,
        second,
        weight: z.value,
        next,
    })
}

// One more arc of the letter's kind, with the two numbers as they stand on the line.
fn add_letter(
    letter: u8,
    k: usize,
    line: ArcLine,
    s: Size,
    arcs: &mut [u8; ARCS],
) -> Result<Size, NetRefusal>
    requires { ArcEntry letter × Fits s }
    ensures { AddsLetter letter k line s arcs.old result arcs.new }
{
    let kind = arc_kind(letter);
    if letter == LETTER_O {
        return add_arc(kind, k, line.second, line.first, line.weight, s, arcs);
    }
    add_arc(kind, k, line.first, line.second, line.weight, s, arcs)
}

// The line at a cursor is added by the readers of lines and fields, whatever it is.
fn add_any(
    table: &Table,
    text: &[u8],
    c: Cursor,
    s: Size,
    tokens: &mut [u16; TOKENS],
    arcs: &mut [u8; ARCS],
) -> Result<Took, NetRefusal>
    requires { (c.at < length text.now) × Fits s }
    ensures { Takes text.now c.at c.line s (arrays_at tokens.old arcs.old) result
        (arrays_at tokens.new arcs.new) }
{
    let k = c.line;
    let at = c.at;
    let line = line_at(table, text, at);
    let next = line.next;
    if !line.ended {
        return Err(NetRefusal::Malformed(k));
    }
    let end = line.end;
    let size = add_row(k, row_of(table, 4, &text[at..end]), s, tokens, arcs)?;
    Ok(Took { size, next })
}

// The line at a cursor is added. A plain line is read in one walk; any other goes to the readers of lines and fields, and
// so does every malformed one.
fn add_at(
    table: &Table,
    text: &[u8],
    c: Cursor,
    s: Size,
    tokens: &mut [u16; TOKENS],
    arcs: &mut [u8; ARCS],
) -> Result<Took, NetRefusal>
    requires { (c.at < length text.now) × EndedTo text.now c.ended × Fits s }
    ensures { Takes text.now c.at c.line s (arrays_at tokens.old arcs.old) result
        (arrays_at tokens.new arcs.new) }
{
    let k = c.line;
    let at = c.at;
    let open = open_at(table, text, c);
    if arc_letter(open) {
        if let Some(f) = arc_line_at(table, text, at, open.letter) {
            let size = add_letter(open.letter, k, f, s, arcs)?;
            return Ok(Took { size, next: f.next });
        }
    }
    if opens_with(LETTER_P, open) {
        let f = one_at(table, 4, text, at);
        if at < f.next {
            let size = add_place(k, f.a, s, tokens)?;
            return Ok(Took { size, next: f.next });
        }
    }
    if open.letter == LETTER_T {
        let next = alone_at(table, text, at, open.behind);
        if at < next {
            let size = add_transition(k, s)?;
            return Ok(Took { size, next });
        }
    }
    add_any(table, text, c, s, tokens, arcs)
}

// The lines are added, one after the other, to arrays that hold no net yet.
fn add_lines(
    text: &[u8],
    tokens: &mut [u16; TOKENS],
    arcs: &mut [u8; ARCS],
) -> Result<Size, NetRefusal>
    requires { Blank tokens.old arcs.old }
    ensures { ReadsLines text.now result (arrays_at tokens.new arcs.new) }
{
    let table = byte_table();
    let ended = ended_to(&table, text);
    let mut s = Size {
        places: 0,
        transitions: 0,
        total: 0,
    };
    let mut k: usize = 1;
    let mut at: usize = 0;
    // A while: the position moves from line to line, as they are read.
    while at < text.len() {
        let line = Cursor { line: k, at, ended };
        let took = add_at(&table, text, line, s, tokens, arcs)?;
        s = took.size;
        k += 1;
        at = took.next;
    }
    Ok(s)
}

// Whether some place is joined to the transition, by the kind of arc that stands from `at` on.
fn any_cell(arcs: &[u8; ARCS], at: usize, t: usize, places: usize) -> bool
    requires { (at ≤ reads_at) × (t < 32) × (places ≤ 32) }
    ensures { result ≡ any_cell (column at kind_count arcs.now) t places }
{
    (0..places).any(|p| 0 < arc_at(arcs, at, t, p))
}

// Whether the transition lacks an input or an output.
fn lacks(arcs: &[u8; ARCS], t: usize, places: usize) -> bool
    requires { (t < 32) × (places ≤ 32) }
    ensures { result ≡ lacks_of (inputs_in arcs.now) (outputs_in arcs.now) places t }
{
    !any_cell(arcs, INPUTS, t, places) | !any_cell(arcs, OUTPUTS, t, places)
}

// The rule that is judged after all lines.
fn finish(size: Size, arcs: &[u8; ARCS]) -> Result<NetSize, NetRefusal>
    requires { Few size }
    ensures { Finishes size arcs.now result }
{
    for t in 0..size.transitions {
        if lacks(arcs, t, size.places) {
            return Err(NetRefusal::Lacking(t));
        }
    }
    Ok(NetSize {
        places: size.places,
        transitions: size.transitions,
    })
}

// The net that a text declares, in arrays that are all zero before; where it is refused they hold no net.
pub fn read_into(
    net: &[u8],
    tokens: &mut [u16; TOKENS],
    arcs: &mut [u8; ARCS],
) -> Result<NetSize, NetRefusal>
    requires { Blank tokens.old arcs.old }
    ensures { ReadsInto net.now result tokens.new arcs.new }
{
    let size = add_lines(net, tokens, arcs)?;
    finish(size, arcs)
}

// What the reader answers to a text, for those who want no net.
pub fn net_answer(net: &[u8]) -> Result<NetSize, NetRefusal>
    ensures { Answers net.now result }
{
    let mut tokens = [0u16; TOKENS];
    let mut arcs = [0u8; ARCS];
    read_into(net, &mut tokens, &mut arcs)
}

// The arcs of one kind.
fn arcs_of(arcs: &[u8; ARCS], at: usize) -> [u8; KIND]
    requires { at ≤ reads_at }
    ensures { result ≡ column at kind_count arcs.now }
{
    let mut r = [0u8; KIND];
    r.copy_from_slice(&arcs[at..at + KIND]);
    r
}

// The net that a text declares, by value.
pub fn read_net(net: &[u8]) -> Result<Net, NetRefusal>
    ensures { Reads net.now result }
{
    let mut tokens = [0u16; TOKENS];
    let mut arcs = [0u8; ARCS];
    let size = read_into(net, &mut tokens, &mut arcs)?;
    Ok(Net {
        places: size.places,
        transitions: size.transitions,
        tokens,
        inputs: arcs_of(&arcs, INPUTS),
        outputs: arcs_of(&arcs, OUTPUTS),
        inhibitors: arcs_of(&arcs, INHIBITORS),
        reads: arcs_of(&arcs, READS),
    })
}

// The net of no text.
fn no_net() -> Net
    ensures { result ≡ no_net }
{
    Net {
        places: 0,
        transitions: 0,
        tokens: [0u16; TOKENS],
        inputs: [0u8; KIND],
        outputs: [0u8; KIND],
        inhibitors: [0u8; KIND],
        reads: [0u8; KIND],
    }
}

// The net that a text declares, for those who want one whatever the text: where it is refused, the net of no text.
pub fn net_or_empty(net: &[u8]) -> Net
    ensures { ReadsNet net.now result }
{
    match read_net(net) {
        Ok(declared) => declared,
        Err(_) => no_net(),
    }
}
