// A line read byte by byte: eight hexadecimal digits, letters of either case.
ghost use Rattle.std.specs.Prelude.{◌≡◌};
ghost use Rattle.lines.specs.Reading.{fresh, pushed};

use crate::digits::digit_of;

// What is known of a line that is being read: how many digits it has, at most eight, and their value, or that it is bad.
#[derive(Clone, Copy)]
pub enum Line {
    Digits { count: u32, value: u32 },
    Bad,
}

impl Line {
    // The line before its first byte.
    pub fn new() -> Line
        ensures { result ≡ fresh }
    {
        Line::Digits { count: 0, value: 0 }
    }

    // The line with one byte more.
    pub fn push(self, b: u8) -> Line
        ensures { result ≡ pushed self b }
    {
        match (self, digit_of(b)) {
            (Line::Digits { count, value }, Some(digit)) if count < 8 => Line::Digits {
                count: count + 1,
                value: value % 268435456 * 16 + digit,
            },
            _ => Line::Bad,
        }
    }
}
