// Prints the text that byte_classes keeps, laid out by `rt fmt`, as its table, so that no hand writes it: every number comes
// from the range rule of `entry_of`, and none from the table.
#![tactic(auto)]

ghost use Rattle.std.specs.Prelude.{◌≡◌, ◌+◌, ◌≤◌, length, take};
ghost use Rattle.byte_entries.specs.Entries.{entry_of};
ghost use Rattle.writing.specs.Written.{Wrote};
ghost use Rattle.byte_table.specs.TableText.{opening, entry_line, entry_lines, line_end_byte, closing, table_text};

use byte_entries::{
    COMMA, DASH, FOREIGN, LETTER_A, LETTER_B, LETTER_C, LETTER_E, LETTER_G, LETTER_H, LETTER_I,
    LETTER_J, LETTER_K, LETTER_O, LETTER_P, LETTER_R, LETTER_S, LETTER_T, LETTER_W, LINE_END,
    RETURN,
};
use std::process::ExitCode;
use streams::write_all;
use writing::{put_byte, put_number};

// How many bytes there are.
const BYTES: usize = 256;

// Room for the text, which has about half as many bytes.
const ROOM: usize = 4096;

// What a byte is, by the range rule: the value of a digit, or the number of another class.
#[tactic(auto, using(crate::proofs::Entries::foreign), unfolding(byte_entries::specs::Entries::entry_of, spec::specs::Text::class_of, spec::specs::Text::named, spec::specs::Text::in_digits, spec::specs::Text::digit_of))]
fn entry_of(b: u8) -> u8
    ensures { result ≡ entry_of b }
{
    match b {
        b'0'..=b'9' => b - b'0',
        b',' => COMMA,
        b'-' => DASH,
        10 => LINE_END,
        b'P' => LETTER_P,
        b'T' => LETTER_T,
        b'I' => LETTER_I,
        b'O' => LETTER_O,
        b'H' => LETTER_H,
        b'S' => LETTER_S,
        b'E' => LETTER_E,
        b'C' => LETTER_C,
        b'B' => LETTER_B,
        b'A' => LETTER_A,
        b'G' => LETTER_G,
        b'R' => LETTER_R,
        b'K' => LETTER_K,
        b'J' => LETTER_J,
        b'W' => LETTER_W,
        13 => RETURN,
        _ => FOREIGN,
    }
}

// The byte that ends a line: the first whose entry says so.
fn line_end_byte() -> usize
    ensures { result ≡ line_end_byte }
{
    for b in 0..BYTES {
        if entry_of(b as u8) == LINE_END {
            return b;
        }
    }
    BYTES
}

// Bytes as they stand.
fn put_bytes(out: &mut [u8], at: usize, bs: &[u8]) -> usize
    requires { at + length bs.now ≤ length out.old }
    ensures { Wrote out.old at bs.now result out.new }
{
    let mut next = at;
    for b in bs {
        next = put_byte(out, next, *b);
    }
    next
}

// What stands before the entries. A position is named by what is written there.
fn put_opening(out: &mut [u8], at: usize) -> usize
    requires { at + length opening ≤ length out.old }
    ensures { Wrote out.old at opening result out.new }
{
    let program = put_bytes(
        out,
        at,
        b"// What each byte is: a digit's value, or 9 more than the number of its class. ",
    );
    let hand = put_bytes(
        out,
        program,
        b"The program `byte_table` prints this text,\n",
    );
    let table = put_bytes(out, hand, b"// and no hand writes in it.\n");
    put_bytes(out, table, b"pub const TABLE: [u8; 256] = [\n")
}

// The line of a byte: its entry.
fn put_entry(out: &mut [u8], at: usize, b: u8) -> usize
    requires { at + length (entry_line b) ≤ length out.old }
    ensures { Wrote out.old at (entry_line b) result out.new }
{
    let number = put_bytes(out, at, b"    ");
    let end = put_number(out, number, entry_of(b) as usize);
    put_bytes(out, end, b",\n")
}

// The lines of all bytes, in their order.
fn put_entries(out: &mut [u8], at: usize) -> usize
    requires { at + length entry_lines ≤ length out.old }
    ensures { Wrote out.old at entry_lines result out.new }
{
    let mut next = at;
    for b in 0..BYTES {
        next = put_entry(out, next, b as u8);
    }
    next
}

// What stands behind the entries: the byte that ends a line.
fn put_closing(out: &mut [u8], at: usize) -> usize
    requires { at + length closing ≤ length out.old }
    ensures { Wrote out.old at closing result out.new }
{
    let comment = put_bytes(out, at, b"];\n\n");
    let name = put_bytes(out, comment, b"// The byte that ends a line.\n");
    let number = put_bytes(out, name, b"pub const LINE_END_BYTE: u8 = ");
    let end = put_number(out, number, line_end_byte());
    put_bytes(out, end, b";\n")
}

// The whole text, from the start of a buffer on; the answer is its length.
fn put_text(out: &mut [u8]) -> usize
    requires { length table_text ≤ length out.old }
    ensures { (result ≡ length table_text) × (take result out.new ≡ table_text) }
{
    let entries = put_opening(out, 0);
    let end = put_entries(out, entries);
    put_closing(out, end)
}

fn main(rt: HostRuntime) -> ExitCode {
    let mut out = [0u8; ROOM];
    let n = put_text(&mut out);
    match write_all(&mut rt.stdout(), &out[..n]) {
        Ok(_) => ExitCode::SUCCESS,
        Err(e) => {
            // Where standard error fails too, the exit status alone says so.
            let _ = eprintln!(rt; "byte_table: standard output: {e}");
            ExitCode::FAILURE
        }
    }
}
