// The lines of a record, each written by its numbers.
#![tactic(auto)]

ghost use Rattle.std.specs.Prelude.{◌≡◌, ◌∷◌, [], ◌+◌, ◌≤◌, length};
ghost use Rattle.spec.specs.Text.{fields_bytes};
ghost use Rattle.spec.specs.Record.{event_field, event_line, mark_line_of};
ghost use Rattle.writing.specs.Written.{Wrote};
ghost use Rattle.conditions.specs.Conditions.{decoded};
ghost use Rattle.line_writer.specs.Lines.{coded_line, letter_of};

use record_columns::NO_EVENT;
use spec::MarkKind;
use writing::{put_byte, put_next};

// A comma, and the producer or consumer behind it, by its byte in a column of fixed memory: 128 stands for no event.
fn put_end(out: &mut [u8], at: usize, v: u8) -> usize
    requires { at + length (fields_bytes (event_field (decoded v) ∷ [])) ≤ length out.old }
    ensures { Wrote out.old at (fields_bytes (event_field (decoded v) ∷ [])) result out.new }
{
    if v == NO_EVENT {
        let next = put_byte(out, at, b',');
        return put_byte(out, next, b'-');
    }
    put_next(out, at, v as usize)
}

// The line of an event, by its transition.
pub fn put_event(out: &mut [u8], at: usize, t: u8) -> usize
    requires { at + length (event_line t) ≤ length out.old }
    ensures { Wrote out.old at (event_line t) result out.new }
{
    let first = put_byte(out, at, b'E');
    let end = put_next(out, first, t as usize);
    put_byte(out, end, 10)
}

// The line of a condition.
pub fn put_condition(out: &mut [u8], at: usize, place: u8, producer: u8, consumer: u8) -> usize
    requires { at + length (coded_line place producer consumer) ≤ length out.old }
    ensures { Wrote out.old at (coded_line place producer consumer) result out.new }
{
    let first = put_byte(out, at, b'C');
    let second = put_next(out, first, place as usize);
    let third = put_end(out, second, producer);
    let end = put_end(out, third, consumer);
    put_byte(out, end, 10)
}

// The letter of a kind. Not a From: MarkKind is of a crate below, and this is the one use.
fn letter(x: MarkKind) -> u8
    ensures { result ≡ letter_of x }
{
    match x {
        MarkKind::Before => b'B',
        MarkKind::After => b'A',
        MarkKind::Read => b'R',
    }
}

// The line of a mark of a kind at condition c and event e.
pub fn put_mark(out: &mut [u8], at: usize, x: MarkKind, c: usize, e: usize) -> usize
    requires { at + length (mark_line_of x c e) ≤ length out.old }
    ensures { Wrote out.old at (mark_line_of x c e) result out.new }
{
    let first = put_byte(out, at, letter(x));
    let second = put_next(out, first, c);
    let end = put_next(out, second, e);
    put_byte(out, end, 10)
}
