// The table of 256 entries, and what is looked up in it.

ghost use Rattle.std.specs.Prelude.{◌≡◌, ◌+◌, ◌≤◌, length, drop};
ghost use Rattle.byte_entries.specs.Entries.{entry_of, is_entry, before_first};
ghost use Rattle.byte_classes.specs.Table.{byte_table};

use super::table::TABLE;

// The table, made once for a text and lent to all that reads it.
#[derive(Clone, Copy)]
pub struct Table {
    pub entries: [u8; 256],
    pub ghost tabulated: { entries ≡ byte_table },
}

// It is made here alone: a constant is built anew wherever it is named.
pub fn byte_table() -> Table
    ensures { result.entries ≡ byte_table }
{
    Table { entries: TABLE }
}

impl Table {
    // What a byte is: the value of a digit, or the number of another class.
    pub fn entry_of(&self, b: u8) -> u8
        ensures { result ≡ entry_of b }
    {
        self.entries[usize::from(b)]
    }

    // Where the bytes that start at a position meet the first one with this entry, or end.
    pub fn end_of(&self, entry: u8, s: &[u8], at: usize) -> usize
        requires { at ≤ length s.now }
        ensures { (result ≡ at + before_first (is_entry entry) (drop at s.now)) × (result ≤ length s.now) }
    {
        for i in at..s.len() {
            if self.entry_of(s[i]) == entry {
                return i;
            }
        }
        s.len()
    }
}
