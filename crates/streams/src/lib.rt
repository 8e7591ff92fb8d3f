// Reading to the end of a reader and writing whole to a writer, where a read or a write may move fewer bytes than asked,
// and where one that a signal interrupts is made again.
#![tactic(auto)]

ghost use Rattle.std.specs.Prelude.{◌≡◌, ◌≢◌, ◌+◌, ◌≤◌, ◌<◌, length, take, drop, IfOk, IfErr, OnErr};
ghost use Rattle.std.specs.IoError.{error_kind};
ghost use Rattle.std.specs.Io.{ReadsAtMost, WritesAtMost};
ghost use Rattle.std.specs.Io.KnownBytes.{Appends, Consumes, IsAtEnd, Keeps};
ghost use Rattle.streams.specs.Streams.{Within, Took, Whole, Gave};

use std::io;
use std::io::{ErrorKind, Read, Write};

// One read, made again where a signal interrupts it. A proved loop has to end, so the turns are counted up to a number
// that no run uses up.
fn read_once<R: Read>(from: &mut R, buf: &mut [u8]) -> io::Result<usize>
    ensures same { length buf.new ≡ length buf.old }
    ensures bound { ReadsAtMost result buf.new }
    ensures ok { IfOk result (λ n. Consumes (R.remaining from.old) (R.remaining from.new) (take n buf.new)) }
    ensures end { IfOk result (λ n. n ≡ 0 → 0 < length buf.old → IsAtEnd (R.remaining from.new)) }
    ensures err { OnErr result (Keeps (R.remaining from.old) (R.remaining from.new)) }
    ensures retried { IfErr result (λ e. error_kind e ≢ ErrorKind.Interrupted) }
{
    for _ in 0..u64::MAX {
        match from.read(buf) {
            Ok(n) => return Ok(n),
            Err(e) => {
                if e.kind() != ErrorKind::Interrupted {
                    return Err(e);
                }
            }
        }
    }
    Err(ErrorKind::TimedOut.into())
}

// The same into the buffer from `at` on.
fn read_some<R: Read>(from: &mut R, buf: &mut [u8], at: usize) -> io::Result<usize>
    requires { at ≤ length buf.old }
    ensures same { length buf.new ≡ length buf.old }
    ensures front { take at buf.new ≡ take at buf.old }
    ensures fits { IfOk result (λ n. at + n ≤ length buf.new) }
    ensures ok { IfOk result (λ n. Consumes (R.remaining from.old) (R.remaining from.new) (take n (drop at buf.new))) }
    ensures end { IfOk result (λ n. n ≡ 0 → at < length buf.old → IsAtEnd (R.remaining from.new)) }
    ensures err { OnErr result (Keeps (R.remaining from.old) (R.remaining from.new)) }
    ensures retried { IfErr result (λ e. error_kind e ≢ ErrorKind.Interrupted) }
{
    read_once(from, &mut buf[at..])
}

// Reads until the input ends or the buffer is full; the answer is how many bytes were read.
pub fn read_all<R: Read>(from: &mut R, buf: &mut [u8]) -> io::Result<usize>
    ensures within { Within (length buf.new) result }
    ensures took { Took (R.remaining from.old) (R.remaining from.new) buf.new result }
    ensures retried { IfErr result (λ e. error_kind e ≢ ErrorKind.Interrupted) }
{
    let mut read = 0;
    // A while: the place moves by what a read gave, which no range or iterator says.
    while read < buf.len() {
        let more = read_some(from, buf, read)?;
        if more == 0 {
            break;
        }
        read += more;
    }
    Ok(read)
}

// One write, made again where a signal interrupts it. It is not one function with `read_once` over what is called: a
// closure that changes the writer that it captures would have to say in its contract all that these two say in theirs.
fn write_once<W: Write>(to: &mut W, buf: &[u8]) -> io::Result<usize>
    ensures bound { WritesAtMost result buf.now }
    ensures ok { IfOk result (λ n. Appends (W.contents to.old) (W.contents to.new) (take n buf.now)) }
    ensures err { OnErr result (Keeps (W.contents to.old) (W.contents to.new)) }
    ensures retried { IfErr result (λ e. error_kind e ≢ ErrorKind.Interrupted) }
{
    for _ in 0..u64::MAX {
        match to.write(buf) {
            Ok(n) => return Ok(n),
            Err(e) => {
                if e.kind() != ErrorKind::Interrupted {
                    return Err(e);
                }
            }
        }
    }
    Err(ErrorKind::TimedOut.into())
}

// The same of the bytes from `at` on.
fn write_some<W: Write>(to: &mut W, buf: &[u8], at: usize) -> io::Result<usize>
    requires { at ≤ length buf.now }
    ensures fits { IfOk result (λ n. at + n ≤ length buf.now) }
    ensures ok { IfOk result (λ n. Appends (W.contents to.old) (W.contents to.new) (take n (drop at buf.now))) }
    ensures err { OnErr result (Keeps (W.contents to.old) (W.contents to.new)) }
    ensures retried { IfErr result (λ e. error_kind e ≢ ErrorKind.Interrupted) }
{
    write_once(to, &buf[at..])
}

// Writes every byte once; the answer is how many there were. `Write::write_all` says nothing of what a writer has where a
// write fails.
pub fn write_all<W: Write>(to: &mut W, buf: &[u8]) -> io::Result<usize>
    ensures whole { Whole (length buf.now) result }
    ensures gave { Gave (W.contents to.old) (W.contents to.new) buf.now result }
    ensures retried { IfErr result (λ e. error_kind e ≢ ErrorKind.Interrupted) }
{
    let mut written = 0;
    // A while: the place moves by what a write took, which no range or iterator says.
    while written < buf.len() {
        let more = write_some(to, buf, written)?;
        if more == 0 {
            return Err(ErrorKind::WriteZero.into());
        }
        written += more;
    }
    Ok(written)
}

#[cfg(test)]
mod tests {
    use super::*;

    // A file that moves at most three bytes at a time, is interrupted at every other turn, and fails where so many turns
    // are done.
    #[derive(Drop)]
    struct SlowFile<'a> {
        unread: &'a [u8],
        kept: [u8; 8],
        written: usize,
        turn: usize,
        fails: usize,
        ghost in_bounds: { written ≤ 8 },
    }

    fn slow_file(unread: &[u8], fails: usize) -> SlowFile<'_> {
        SlowFile {
            unread,
            kept: [0; 8],
            written: 0,
            turn: 0,
            fails,
        }
    }

    // Where this turn fails, how.
    fn failure(turn: usize, fails: usize) -> Option<ErrorKind> {
        if turn % 2 == 0 {
            Some(ErrorKind::Interrupted)
        } else if turn >= fails {
            Some(ErrorKind::ConnectionReset)
        } else {
            None
        }
    }

    impl<'a> Read for SlowFile<'a> {
        fn read(&mut self, buf: &mut [u8]) -> io::Result<usize> {
            self.turn = self.turn.wrapping_add(1);
            if let Some(kind) = failure(self.turn, self.fails) {
                return Err(kind.into());
            }
            let most = buf.len().min(3);
            self.unread.read(&mut buf[..most])
        }
    }

    // No more than eight bytes.
    impl<'a> Write for SlowFile<'a> {
        fn write(&mut self, buf: &[u8]) -> io::Result<usize> {
            self.turn = self.turn.wrapping_add(1);
            if let Some(kind) = failure(self.turn, self.fails) {
                return Err(kind.into());
            }
            let start = self.written;
            let moved = buf.len().min(3).min(self.kept.len() - start);
            self.kept[start..start + moved].copy_from_slice(&buf[..moved]);
            self.written = start + moved;
            Ok(moved)
        }

        fn flush(&mut self) -> io::Result<()> {
            Ok(())
        }
    }

    #[test]
    fn reads_all_or_as_much_as_fits(rt: HostRuntime) {
        let mut from = slow_file(b"a net", 100);
        let mut buf = [7u8; 8];
        assert!(rt; matches!(read_all(&mut from, &mut buf), Ok(5)));
        assert!(rt; buf == *b"a net\x07\x07\x07");
        let mut from = slow_file(b"a net and a log", 100);
        assert!(rt; matches!(read_all(&mut from, &mut buf), Ok(8)));
        assert!(rt; buf == *b"a net an");
        assert!(rt; from.unread == b"d a log".as_slice());
    }

    #[test]
    fn says_that_a_read_failed(rt: HostRuntime) {
        let mut from = slow_file(b"a net and a log", 4);
        let mut buf = [7u8; 32];
        match read_all(&mut from, &mut buf) {
            Ok(_) => panic!(rt; "no failure"),
            Err(e) => assert_eq!(rt; e.kind(), ErrorKind::ConnectionReset),
        }
    }

    #[test]
    fn writes_all_or_says_that_a_write_failed(rt: HostRuntime) {
        let mut to = slow_file(b"", 100);
        assert!(rt; matches!(write_all(&mut to, b"E,0\nE,1\n"), Ok(8)));
        assert!(rt; to.kept == *b"E,0\nE,1\n");
        match write_all(&mut to, b"E") {
            Ok(_) => panic!(rt; "written where there is no room"),
            Err(e) => assert_eq!(rt; e.kind(), ErrorKind::WriteZero),
        }
        match write_all(&mut slow_file(b"", 2), b"E,0\nE,1\n") {
            Ok(_) => panic!(rt; "no failure"),
            Err(e) => assert_eq!(rt; e.kind(), ErrorKind::ConnectionReset),
        }
    }
}
