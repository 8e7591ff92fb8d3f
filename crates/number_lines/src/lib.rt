// Lines of one letter and one number or more, as those of a log and of an arrangement are: judged, counted and read.
#![tactic(auto)]

ghost use Rattle.std.specs.Prelude.{◌≡◌, ◌&&◌, ◌+◌, ◌≤◌, leb, length};
ghost use Rattle.spec.specs.Lists.{any};
ghost use Rattle.spec.specs.Text.{most_digits};
ghost use Rattle.line_forms.specs.Rows.{is_list, values_of};
ghost use Rattle.spec.specs.Building.{is_step_line};
ghost use Rattle.byte_entries.specs.Entries.{class_by};
ghost use Rattle.lines.specs.Lines.{line_of, Ahead};
ghost use Rattle.plain_lines.specs.Plain.{LetterEntry};
ghost use Rattle.number_lines.specs.Numbers.{numbers_long, Few, Begins, Puts, ListAt};

use byte_classes::Table;
use byte_entries::{COMMA, FOREIGN};
use digits::number_from;
use fields::{fields_of, is_list};
use line_forms::number_in;
use lines::past_ending;
use spec::Class;

// The numbers of a line that are kept: no more events are in one.
pub const NUMBERS: usize = 128;

// Whether a line is ended, and is this letter and one number or more.
pub fn is_list_line(table: &Table, k: Class, l: &[u8], ended: bool) -> bool
    ensures { result ≡ (ended && is_list most_digits k l.now) }
{
    ended && is_list(table, 4, k, l)
}

// Whether a line is one of a log.
pub fn is_step_line(table: &Table, l: &[u8], ended: bool) -> bool
    ensures { result ≡ is_step_line (line_of l.now ended) }
{
    is_list_line(table, Class::LetterS, l, ended)
}

// Whether a line names something unknown, where `known` things are numbered from 0.
pub fn any_unknown(table: &Table, l: &[u8], known: usize) -> bool
    ensures { result ≡ any (leb known) (values_of most_digits l.now) }
{
    fields_of(table, 4, l).any(|f| known <= number_in(f))
}

// How many numbers a line has.
pub fn count_numbers(table: &Table, l: &[u8]) -> usize
    ensures { (result ≡ length (values_of most_digits l.now)) × (result ≤ length l.now + 1) }
{
    fields_of(table, 4, l).count()
}

// The numbers of a line.
pub fn numbers(table: &Table, l: &[u8]) -> [u8; NUMBERS]
    requires { Few numbers_long 256 (values_of most_digits l.now) }
    ensures { Begins result (values_of most_digits l.now) }
{
    let mut xs = [0u8; NUMBERS];
    for (i, f) in fields_of(table, 4, l).enumerate() {
        xs[i] = number_in(f) as u8;
    }
    xs
}

// A list line in one walk: how many numbers it has, the greatest of them, and where the next line starts.
#[derive(Clone, Copy)]
pub struct Listed {
    pub count: usize,
    pub high: usize,
    pub next: usize,
}

// Number i of a line goes into an array that has room for the first 128, each below 256.
fn put(xs: &mut [u8; NUMBERS], i: usize, v: usize)
    requires { length xs.old ≡ numbers_long }
    ensures { Puts xs.old i v xs.new }
{
    if i < NUMBERS {
        xs[i] = (v % 256) as u8;
    }
}

// The line that starts at a position, if it is ended and is this letter, known by its entry, and one number or more. A
// line end is ahead, so no length is tested; and what stands behind a number was looked at with it. A line of another
// form leaves `next` at the position, for the functions above.
pub fn list_at(table: &Table, letter: u8, text: &[u8], at: usize, xs: &mut [u8; NUMBERS]) -> Listed
    requires { LetterEntry letter × Ahead text.now at × (length xs.old ≡ numbers_long) }
    ensures { ListAt (class_by letter) text.now at result xs.new }
{
    let none = Listed {
        count: 0,
        high: 0,
        next: at,
    };
    if table.entry_of(text[at]) != letter {
        return none;
    }
    let mut seen: usize = 0;
    let mut high: usize = 0;
    let mut end = at + 1;
    let mut stop = table.entry_of(text[end]);
    // A while: it goes on by the byte behind a number, which was looked at with the number.
    while stop == COMMA {
        let v = number_from(table, 4, text, end + 1);
        if v.stop == FOREIGN {
            return none;
        }
        put(xs, seen, v.value);
        high = high.max(v.value);
        seen += 1;
        end = v.end;
        stop = v.stop;
    }
    if seen == 0 {
        return none;
    }
    let next = past_ending(table, text, stop, end);
    if next == end {
        return none;
    }
    Listed {
        count: seen,
        high,
        next,
    }
}
