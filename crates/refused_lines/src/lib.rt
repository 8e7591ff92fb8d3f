// The refused line: the part of the net text or the second text that a line number names.
#![tactic(auto)]

ghost use Rattle.std.specs.Prelude.{◌≡◌, ◌<◌};
ghost use Rattle.spec.specs.Answer.{returned};
ghost use Rattle.spec.specs.LineParts.{refused_line, part_of};
ghost use Rattle.spec.specs.Values.{line_values};
ghost use Rattle.refused_lines.specs.Shown.{Running, Finds, FindsChosen, answer_of, place_of};

use byte_classes::{LINE_END_BYTE, byte_table};
use byte_entries::LINE_END;
use byte_slices::{CHUNK, count_in};
use lines::line_at;

// Where a line starts in its text, and how long it is without its ending.
#[derive(Clone, Copy, Debug, PartialEq, Eq)]
pub struct LinePart {
    pub start: usize,
    pub length: usize,
}

// No line has this number.
#[derive(Clone, Copy, Debug, PartialEq, Eq)]
pub struct NoSuchLine(pub usize);

// A position, and how many line ends stand from it on in front of a line.
#[derive(Clone, Copy)]
pub struct Place {
    pub left: usize,
    pub at: usize,
}

// A position in front of the line with a number. 128 bytes are passed over at a time, as long as they have fewer line
// ends than are left: the line then starts behind them. They are counted by the byte that the table's text names, since no
// machine looks up many bytes at once in a table.
fn skip(text: &[u8], line: usize) -> Place
    requires { 0 < line }
    ensures { Running text.now line result.left result.at }
{
    let mut left = line - 1;
    let mut at: usize = 0;
    for part in text.chunks_exact(CHUNK) {
        let c = count_in(LINE_END_BYTE, part);
        if left <= c {
            break;
        }
        left -= c;
        at += CHUNK;
    }
    Place { left, at }
}

// The line with a number, from 1; an unended last piece counts as a line.
fn find_line(text: &[u8], line: usize) -> Option<LinePart>
    ensures { Finds text.now line result }
{
    if line == 0 {
        return None;
    }
    let table = byte_table();
    let Place { mut left, mut at } = skip(text, line);
    // A while: the position moves from line end to line end, as they are found.
    while at < text.len() {
        if left == 0 {
            let l = line_at(&table, text, at);
            return Some(LinePart {
                start: at,
                length: l.end - at,
            });
        }
        left -= 1;
        at = table.end_of(LINE_END, text, at) + 1;
    }
    None
}

// The same in the chosen text: 0 the net text, 1 the second.
fn find(net: &[u8], second: &[u8], choice: u8, line: usize) -> Option<LinePart>
    ensures { FindsChosen net.now second.now choice line result }
{
    match choice {
        0 => find_line(net, line),
        1 => find_line(second, line),
        _ => None,
    }
}

// The part itself; where there is no such line it is empty, at the start of the net text.
pub fn refused_line<'a>(net: &'a [u8], second: &'a [u8], choice: u8, line: usize) -> &'a [u8]
    ensures bytes { result.now ≡ (part_of (refused_line net.now second.now choice line)).bytes }
    ensures place { result.ref_ptr ≡ place_of net.entry second.entry
        (part_of (refused_line net.now second.now choice line)) }
{
    match find(net, second, choice, line) {
        Some(part) => {
            let start = part.start;
            let end = start + part.length;
            if choice == 0 {
                &net[start..end]
            } else {
                &second[start..end]
            }
        }
        None => &net[..0],
    }
}

// Where the part lies, or refusal 46.
pub fn refused_line_answer(
    net: &[u8],
    second: &[u8],
    choice: u8,
    line: usize,
) -> Result<LinePart, NoSuchLine>
    ensures { answer_of result
        ≡ returned line_values (refused_line net.now second.now choice line) }
{
    find(net, second, choice, line).ok_or(NoSuchLine(line))
}
