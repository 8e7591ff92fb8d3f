// Bytes cleared, and a chunk of them copied or counted.
#![tactic(auto)]

ghost use Rattle.std.specs.Prelude.{◌≡◌, ℕ, ◌+◌, ◌<◌, ◌≤◌, length, get_or};
ghost use Rattle.lists.specs.Mapped.{Mapped};
ghost use Rattle.byte_slices.specs.Changes.{zeros};
ghost use Rattle.byte_slices.specs.Counts.{chunk, count_of};

// The bytes that are copied or counted at a time.
pub const CHUNK: usize = 128;

// The first n entries at 0.
pub fn clear(a: &mut [u8], n: usize)
    requires { n ≤ length a.old }
    ensures { Mapped a.old n zeros a.new }
{
    a[..n].fill(0);
}

// A copy of the chunk from a position on, so that no store changes what is read of them.
pub fn bytes_at(t: &[u8], at: usize) -> [u8; CHUNK]
    requires { at + chunk ≤ length t.now }
    ensures { (f : ℕ) → f < chunk → get_or result f 0 ≡ get_or t.now (at + f) 0 }
{
    let mut r = [0u8; CHUNK];
    r.copy_from_slice(&t[at..at + CHUNK]);
    r
}

// How many bytes of a part, no longer than a chunk, are b. One byte holds the sum, so that the compiler adds 16 of them
// at a time.
pub fn count_in(b: u8, part: &[u8]) -> usize
    requires { length part.now ≤ chunk }
    ensures { (result ≡ count_of b part.now) × (result ≤ chunk) }
{
    let n: u8 = part.iter().map(|x| u8::from(*x == b)).sum();
    usize::from(n)
}
