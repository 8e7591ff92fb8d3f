// The program's input: a net, a line `=`, a log.
#![tactic(auto)]

ghost use Rattle.std.specs.Prelude.{◌≡◌, ◌≤◌, ◌<◌, length};
ghost use Rattle.lines.specs.Lines.{PastEnding};
ghost use Rattle.program_input.specs.Parts.{starts_at, parts_at, Running, Parts};

use byte_classes::{Table, byte_table};
use byte_entries::{LINE_END, RETURN};
use byte_slices::{CHUNK, count_in};
use lines::past_ending;

// Where the net ends, in front of the line `=`, and where the log starts behind it.
#[derive(Clone, Copy, Debug, PartialEq, Eq)]
pub struct Parted {
    pub end: usize,
    pub start: usize,
}

// Whether a line starts at a position.
fn starts_at(table: &Table, s: &[u8], at: usize) -> bool
    requires { at < length s.now }
    ensures { result ≡ starts_at s.now at }
{
    at == 0 || table.entry_of(s[at - 1]) == LINE_END
}

// Where the log starts if an ending stands at a position; else the position.
fn log_from(table: &Table, s: &[u8], at: usize) -> usize
    requires { at ≤ length s.now }
    ensures { PastEnding s.now at result }
{
    if s.len() <= at {
        return at;
    }
    let entry = table.entry_of(s[at]);
    let second = at + 1;
    if (entry == RETURN) & (s.len() <= second) {
        return at;
    }
    past_ending(table, s, entry, at)
}

// Whether the line `=` starts at a position. Its byte has no class of its own, and is compared.
fn parts_at(table: &Table, s: &[u8], at: usize) -> bool
    requires { at < length s.now }
    ensures { result ≡ parts_at s.now at }
{
    if s[at] != b'=' {
        return false;
    }
    let end = at + 1;
    let log = log_from(table, s, end);
    if log == end {
        return false;
    }
    starts_at(table, s, at)
}

// A position in front of the first line `=`: 128 bytes without a byte `=` are passed over at a time.
fn skip(s: &[u8]) -> usize
    ensures { Running s.now result }
{
    let mut at: usize = 0;
    for part in s.chunks_exact(CHUNK) {
        if count_in(b'=', part) > 0 {
            break;
        }
        at += CHUNK;
    }
    at
}

// The first line `=`, if a line is one.
pub fn part_input(input: &[u8]) -> Option<Parted>
    ensures { Parts input.now result }
{
    let table = byte_table();
    for at in skip(input)..input.len() {
        if parts_at(&table, input, at) {
            return Some(Parted {
                end: at,
                start: log_from(&table, input, at + 1),
            });
        }
    }
    None
}
