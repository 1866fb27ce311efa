// The columns of a row: 16 hexadecimal digits each, a space after each but the last, which a line feed ends.
ghost use Rattle.std.specs.Prelude.{◌≡◌, ◌+◌, ◌^◌, ◌<◌, ◌≤◌, length, unwrap_or};
ghost use Rattle.vectors.specs.Columns.{columns, row_length, column_at, is_column, are_columns, word_at, integer_at};

use lines::digits::digit_of;

// How many columns a row has, and how many bytes.
const COLUMNS: usize = 16;

pub const ROW_LENGTH: usize = 17 * COLUMNS;

// What a damaged column reads as: no column may hold it.
const DAMAGED: u64 = 9223372036854775808;

// The numbers that a column may hold are those that are below a limit once a shift is added.
#[derive(Clone, Copy)]
struct Kind {
    shift: u64,
    limit: u64,
}

const OPERATION: Kind = Kind {
    shift: 0,
    limit: 24,
};

const SIGN: Kind = Kind { shift: 0, limit: 2 };

// A significand or a pattern.
const SIGNIFICAND: Kind = Kind {
    shift: 0,
    limit: DAMAGED,
};

const UNSIGNED: Kind = Kind {
    shift: 0,
    limit: 4294967296,
};

const SIGNED: Kind = Kind {
    shift: 2147483648,
    limit: 4294967296,
};

// The operation and the format, the direction, two operands, the refusal and the answer.
const KINDS: [Kind; COLUMNS] = [
    OPERATION,
    UNSIGNED,
    UNSIGNED,
    SIGNED,
    SIGNED,
    UNSIGNED,
    SIGN,
    SIGNIFICAND,
    SIGNED,
    SIGN,
    SIGNIFICAND,
    SIGNED,
    UNSIGNED,
    SIGN,
    SIGNIFICAND,
    SIGNED,
];

// The 16 digits at column c, where they are digits.
fn digits_at(row: &[u8], c: usize) -> Option<u64>
    requires { (row_length ≤ length row.now) × (c < columns) }
    ensures { unwrap_or result (2 ^ 63) ≡ column_at row.now c }
{
    let start = 17 * c;
    let mut value = 0;
    for &b in &row[start..start + 16] {
        value = value * 16 + u64::from(digit_of(b)?);
    }
    Some(value)
}

// The 16 digits at column c.
pub fn column_at(row: &[u8], c: usize) -> u64
    requires { (row_length ≤ length row.now) × (c < columns) }
    ensures { result ≡ column_at row.now c }
{
    digits_at(row, c).unwrap_or(DAMAGED)
}

// Is column c digits of a number that it may hold, with the right byte after it?
fn is_column(row: &[u8], c: usize) -> bool
    requires { (row_length ≤ length row.now) × (c < columns) }
    ensures { result ≡ is_column row.now c }
{
    let kind = KINDS[c];
    let end = if c + 1 < COLUMNS { b' ' } else { b'\n' };
    column_at(row, c).wrapping_add(kind.shift) < kind.limit && row[17 * c + 16] == end
}

// Is every column?
pub fn are_columns(row: &[u8]) -> bool
    requires { row_length ≤ length row.now }
    ensures { result ≡ are_columns row.now 0 columns }
{
    (0..COLUMNS).all(|c| is_column(row, c))
}

// The lower 32 bits of column c.
pub fn word(row: &[u8], c: usize) -> u32
    requires { (row_length ≤ length row.now) × (c < columns) }
    ensures { result ≡ word_at row.now c }
{
    (column_at(row, c) % 4294967296) as u32
}

// The same as a signed number.
pub fn integer(row: &[u8], c: usize) -> i32
    requires { (row_length ≤ length row.now) × (c < columns) }
    ensures { result ≡ integer_at row.now c }
{
    word(row, c).cast_signed()
}
