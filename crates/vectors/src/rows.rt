// A row: does its call answer what it says? The columns are the operation, base, digits, emin, emax and direction; sign, significand
// and exponent of the first operand and of the second; the answer's refusal, 0 for none, and its sign, significand and exponent.
ghost use Rattle.std.specs.Prelude.{◌≡◌, ◌+◌, ◌<◌, ◌≤◌, length};
ghost use Rattle.format.specs.Given.{given};
ghost use Rattle.vectors.specs.Columns.{columns, row_length};
ghost use Rattle.vectors.specs.Rows.{number_at, row_answer, is_answer, agrees, rows_in, counted};

use crate::{calls, columns};
use format::{Format, Refusal};
use number::Number;

// How many rows agree, and how many there are.
#[derive(Clone, Copy)]
pub struct Tally {
    pub agree: u64,
    pub all: u64,
}

// The number in columns c to c + 2.
fn number_at(row: &[u8], c: usize) -> Number
    requires { (row_length ≤ length row.now) × (c + 2 < columns) }
    ensures { result ≡ number_at row.now c }
{
    Number {
        negative: columns::word(row, c) == 1,
        significand: columns::column_at(row, c + 1),
        exponent: columns::integer(row, c + 2),
    }
}

// What the call of a row answers.
fn answer_at(row: &[u8]) -> Result<Number, Refusal>
    requires { row_length ≤ length row.now }
    ensures { given result ≡ row_answer row.now }
{
    let format = Format {
        base: columns::word(row, 1),
        digits: columns::word(row, 2),
        emin: columns::integer(row, 3),
        emax: columns::integer(row, 4),
    };
    let a = number_at(row, 6);
    let b = number_at(row, 9);
    calls::answer_of(columns::word(row, 0), format, columns::word(row, 5), a, b)
}

// Are this refusal and this number the answer that a row says?
fn is_answer(row: &[u8], refusal: u32, x: Number) -> bool
    requires { row_length ≤ length row.now }
    ensures { result ≡ is_answer row.now refusal x }
{
    columns::word(row, 12) == refusal && x == number_at(row, 13)
}

// Has the row its length and its columns, and does its call answer what it says? Bytes after the row do not count.
fn agrees(row: &[u8]) -> bool
    ensures { result ≡ agrees row.now }
{
    if row.len() < columns::ROW_LENGTH {
        return false;
    }
    if !columns::are_columns(row) {
        return false;
    }
    match answer_at(row) {
        Ok(x) => is_answer(row, 0, x),
        Err(why) => is_answer(row, u32::from(why), calls::whole(false, 0)),
    }
}

// Every row of an input, after those before it. A row has `ROW_LENGTH` bytes, the last perhaps fewer, so that every byte belongs to a row: a
// damaged row is counted, and differs.
pub fn count(before: Tally, input: &[u8]) -> Tally
    ensures { result ≡ counted before input.now (rows_in (length input.now)) }
{
    let mut tally = before;
    for row in input.chunks(columns::ROW_LENGTH) {
        tally = Tally {
            agree: tally.agree.wrapping_add(u64::from(agrees(row))),
            all: tally.all.wrapping_add(1),
        };
    }
    tally
}
