// The program between a reader and a writer: the input read to its end, the library's answer written once.
#![tactic(auto)]

ghost use Rattle.std.specs.Prelude.{◌≡◌, ◌≤◌, length, take};
ghost use Rattle.printing.specs.Prints.{Prints};
ghost use Rattle.streams.specs.Streams.{Whole, Gave};
ghost use Rattle.answering.specs.Answers.{cause, Answers, HasTaken, HasGiven};

use pti::{PROGRAM_BYTES, program};
use std::io;
use std::io::{Read, Write};
use streams::{read_all, write_all};

// How many bytes were read, and how many the program prints of them.
#[derive(Clone, Copy)]
pub struct Answered {
    pub read: usize,
    pub printed: usize,
}

// Why the input could not be read to its end, so that nothing was printed; or what could not all be written, and why.
#[derive(Clone, Copy)]
pub enum Failure {
    Unread(io::Error),
    Unwritten(Answered, io::Error),
}

impl From<Failure> for io::Error {
    ghost from_gives = { λ failure e. e ≡ cause failure };

    fn from(failure: Failure) -> io::Error {
        match failure {
            Failure::Unread(e) | Failure::Unwritten(_, e) => e,
        }
    }
}

// What the program prints of the first n bytes.
fn print_first(input: &[u8], n: usize, out: &mut [u8; PROGRAM_BYTES]) -> usize
    requires { n ≤ length input.now }
    ensures { Prints (take n input.now) out.old result out.new }
{
    program(&input[0..n], out)
}

// Writes the first m bytes.
fn write_first<W: Write>(to: &mut W, out: &[u8], m: usize) -> io::Result<usize>
    requires { m ≤ length out.now }
    ensures whole { Whole m result }
    ensures gave { Gave (W.contents to.old) (W.contents to.new) (take m out.now) result }
{
    write_all(to, &out[0..m])
}

// The bytes that are read: one more than an input may have, so that a longer one is seen to be one.
pub const INPUT_BYTES: usize = 65537;

// The program between a reader and a writer.
pub fn answer<R: Read, W: Write>(
    from: &mut R,
    to: &mut W,
    input: &mut [u8; INPUT_BYTES],
    out: &mut [u8; PROGRAM_BYTES],
) -> Result<Answered, Failure>
    ensures buffers { Answers input.new out.old result out.new }
    ensures taken { HasTaken (R.remaining from.old) (R.remaining from.new) input.new result }
    ensures given { HasGiven (W.contents to.old) (W.contents to.new) input.new result }
{
    let read = read_all(from, input).map_err(Failure::Unread)?;
    let printed = print_first(input, read, out);
    let answered = Answered { read, printed };
    match write_first(to, out, printed) {
        Ok(_) => Ok(answered),
        Err(e) => Err(Failure::Unwritten(answered, e)),
    }
}
