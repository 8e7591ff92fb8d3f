// The check's table of 16,384 bytes, from the closed order in rows of bits.
#![tactic(auto)]

ghost use Rattle.std.specs.Prelude.{◌≡◌, ℕ, ◌+◌, ◌*◌, ◌%◌, ◌<◌, ◌≤◌, length};
ghost use Rattle.lists.specs.Mapped.{Mapped};
ghost use Rattle.bit_sets.specs.Bits.{bit};
ghost use Rattle.reach.specs.Rows.{cell_of};
ghost use Rattle.row_table.specs.Spread.{spread};
ghost use Rattle.row_table.specs.Table.{table_size, row_size, word_bits, Run, row_entry, byte_in};

use bit_sets::Set;
use byte_slices::clear;
use reach::{WORDS, row_at};

// The bytes of the table.
pub const TABLE: usize = 16384;

// The bytes of one of its rows.
const ROW: usize = 128;

// The bytes that one word of a set makes.
const WORD: usize = 64;

// Eight bits as eight bytes.
fn spread(x: u64) -> u64
    requires { x < 256 }
    ensures { result ≡ spread x }
{
    (((x & 127) * 0x2_0408_1020_4081) & 0x0101_0101_0101_0101) + ((x >> 7) << 56)
}

// Eight entries: 2 where both have the bit, 1 where one has it.
fn put_eight(out: &mut [u8], at: usize, p: u64, s: u64)
    requires { (p < 256) × (s < 256) × (at + 8 ≤ length out.old) }
    ensures { Run out.old at 8 (λ i. bit p i + bit s i) out.new }
{
    let z = spread(p) + spread(s);
    out[at..at + 8].copy_from_slice(&z.to_le_bytes());
}

// The entries of two words.
fn put_word(out: &mut [u8], at: usize, p: u64, s: u64)
    requires { at + word_bits ≤ length out.old }
    ensures { Run out.old at word_bits (λ i. bit p i + bit s i) out.new }
{
    for j in 0..8 {
        put_eight(out, at + 8 * j, (p >> (8 * j)) & 255, (s >> (8 * j)) & 255);
    }
}

// The entries of row e, 0 for e itself.
fn put_row(w: &[u64; WORDS], e: usize, out: &mut [u8])
    requires { (e < 128) × (table_size ≤ length out.old) }
    ensures { Run out.old (row_size * e) row_size (row_entry w.now e) out.new }
{
    let r = row_at(w, e);
    let o = Set::one(e);
    let p = r.path.less(o);
    let s = r.strict.less(o);
    put_word(out, ROW * e, p.lo, s.lo);
    put_word(out, ROW * e + WORD, p.hi, s.hi);
}

// The table of the n events: their rows, and 0 behind them.
pub fn write_table(w: &[u64; WORDS], n: usize, out: &mut [u8])
    requires { (n ≤ 128) × (table_size ≤ length out.old) × ((e f : ℕ) → e < n → n ≤ f → cell_of w.now e f ≡ 0) }
    ensures { Mapped out.old table_size (byte_in (cell_of w.now) n) out.new }
{
    clear(out, TABLE);
    for e in 0..n {
        put_row(w, e, out);
    }
}
