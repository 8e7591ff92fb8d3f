// The fields of a line, one after the other.

ghost use Rattle.std.specs.Prelude.{◌+◌, ◌≤◌, length};

use super::field_at;
use byte_classes::Table;
use line_forms::Slot;

// The fields of a line from a position on, which is past its end where none is left. A number has at most `most` digits.
#[derive(Drop)]
pub struct Fields<'a> {
    pub table: &'a Table,
    pub most: usize,
    pub line: &'a [u8],
    pub at: usize,
    pub ghost few: { most ≤ 18 },
    pub ghost within: { at ≤ length line.now + 1 },
}

impl<'a> Iterator for Fields<'a> {
    type Item = Slot;

    ghost use Rattle.std.specs.Iterator.{YieldsFirst, item_count};
    ghost use Rattle.fields.specs.Left.{fields_left};

    ghost next_gives = { YieldsFirst fields_left };

    ghost remaining = { item_count fields_left };

    fn next(&mut self) -> Option<Slot> {
        if self.line.len() < self.at {
            return None;
        }
        let f = field_at(self.table, self.most, self.line, self.at);
        self.at = f.next;
        Some(f.field)
    }
}
