// Writing texts: bytes, numbers, fields and lines, each from a position on; the answer is the next position.
#![tactic(auto)]

ghost use Rattle.std.specs.Prelude.{◌+◌, ◌<◌, ◌≤◌, ◌∷◌, [], length};
ghost use Rattle.spec.specs.Text.{digits, field_bytes, fields_bytes};
ghost use Rattle.spec.specs.declared.Field.TheVariants.{Number};
ghost use Rattle.writing.specs.Written.{Wrote, last_two, line_bytes};

use spec::Field;

pub fn put_byte(out: &mut [u8], at: usize, b: u8) -> usize
    requires { at < length out.old }
    ensures { Wrote out.old at (b ∷ []) result out.new }
{
    out[at] = b;
    at + 1
}

// The last two digits of a number in base ten.
fn put_two(out: &mut [u8], at: usize, n: usize) -> usize
    requires { at + 2 ≤ length out.old }
    ensures { Wrote out.old at (last_two n) result out.new }
{
    out[at] = (48 + n / 10 % 10) as u8;
    out[at + 1] = (48 + n % 10) as u8;
    at + 2
}

// A number in base ten without leading zeros; of one from 10,000 on the last four digits.
pub fn put_number(out: &mut [u8], at: usize, n: usize) -> usize
    requires { at + length (digits 4 n) ≤ length out.old }
    ensures { Wrote out.old at (digits 4 n) result out.new }
{
    if n < 10 {
        return put_byte(out, at, (48 + n) as u8);
    }
    if n < 100 {
        return put_two(out, at, n);
    }
    if n < 1000 {
        let next = put_byte(out, at, (48 + n / 100) as u8);
        return put_two(out, next, n);
    }
    let next = put_two(out, at, n / 100);
    put_two(out, next, n)
}

// A comma and the number behind it.
pub fn put_next(out: &mut [u8], at: usize, n: usize) -> usize
    requires { at + length (fields_bytes (Number n ∷ [])) ≤ length out.old }
    ensures { Wrote out.old at (fields_bytes (Number n ∷ [])) result out.new }
{
    let digits = put_byte(out, at, b',');
    put_number(out, digits, n)
}

// The bytes of a field.
fn put_value(out: &mut [u8], at: usize, f: Field) -> usize
    requires { at + length (field_bytes f) ≤ length out.old }
    ensures { Wrote out.old at (field_bytes f) result out.new }
{
    match f {
        Field::Number(n) => put_number(out, at, n),
        Field::Dash => put_byte(out, at, b'-'),
    }
}

// A comma and the field behind it.
pub fn put_field(out: &mut [u8], at: usize, f: Field) -> usize
    requires { at + length (fields_bytes (f ∷ [])) ≤ length out.old }
    ensures { Wrote out.old at (fields_bytes (f ∷ [])) result out.new }
{
    let next = put_byte(out, at, b',');
    put_value(out, next, f)
}

// The fields, each behind a comma.
fn put_fields(out: &mut [u8], at: usize, fields: &[Field]) -> usize
    requires { at + length (fields_bytes fields.now) ≤ length out.old }
    ensures { Wrote out.old at (fields_bytes fields.now) result out.new }
{
    let mut next = at;
    for f in fields {
        next = put_field(out, next, *f);
    }
    next
}

// A line: the letter, the fields, and byte 10.
pub fn put_line(out: &mut [u8], at: usize, letter: u8, fields: &[Field]) -> usize
    requires { at + length (line_bytes letter fields.now) ≤ length out.old }
    ensures { Wrote out.old at (line_bytes letter fields.now) result out.new }
{
    let first = put_byte(out, at, letter);
    let end = put_fields(out, first, fields);
    put_byte(out, end, b'\n')
}
