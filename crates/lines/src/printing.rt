// The line that is printed for a line, with its line feed, stored in a lent slice from a position on. Each function answers the
// position after what it stored. `out` and `at` go side by side: in a struct that holds the slice each contract would say, besides
// what is stored, that the slice is still the one that was lent.
ghost use Rattle.std.specs.Prelude.{◌≡◌, [], ◌∷◌, ◌++◌, ◌+◌, ◌≤◌, length};
ghost use Rattle.format.specs.Given.{given};
ghost use Rattle.binary32.specs.Places.{places_given};
ghost use Rattle.lines.specs.Digits.{low_digits};
ghost use Rattle.lines.specs.Printing.{Put, field_text, fields, spaced, pattern_text, text_of, line_feed};

use crate::digits::LETTERS;
use crate::reading::Line;
use binary32::finite::is_finite;
use binary32::places::{Places, places_of};
use format::Refusal;

// The eight digits of a number, the highest first, letters in lower case.
fn hexadecimal(n: u32) -> [u8; 8]
    ensures { result ≡ low_digits 8 n }
{
    let mut text = [0; 8];
    for i in 0..8 {
        text[i] = LETTERS[(n >> (28 - 4 * i)) as usize % 16];
    }
    text
}

// The bytes of a text.
fn put_text(out: &mut [u8], at: usize, text: &[u8]) -> usize
    requires { at + length text.now ≤ length out.old }
    ensures { Put at (length text.now) text.now out.old result out.new }
{
    let end = at + text.len();
    out[at..end].copy_from_slice(text);
    end
}

// A pattern, or - where there is none, and the byte that ends it.
fn put_field(out: &mut [u8], at: usize, field: Result<u32, Refusal>, end: u8) -> usize
    requires { at + 9 ≤ length out.old }
    ensures { Put at 9 (field_text (given field) ++ end ∷ []) out.old result out.new }
{
    match field {
        Ok(n) => {
            let at = put_text(out, at, &hexadecimal(n));
            put_text(out, at, &[end])
        }
        Err(_) => put_text(out, at, &[b'-', end]),
    }
}

// ufp, ulp, predecessor, successor.
fn put_places(out: &mut [u8], at: usize, places: Places) -> usize
    requires { at + 36 ≤ length out.old }
    ensures { Put at 36 (spaced (fields (places_given places)) ++ line_feed) out.old result out.new }
{
    let at = put_field(out, at, places.ufp, b' ');
    let at = put_field(out, at, places.ulp, b' ');
    let at = put_field(out, at, places.predecessor, b' ');
    put_field(out, at, places.successor, b'\n')
}

// The line for a pattern.
fn put_pattern(out: &mut [u8], at: usize, pattern: u32) -> usize
    requires { at + 45 ≤ length out.old }
    ensures { Put at 45 (pattern_text pattern ++ line_feed) out.old result out.new }
{
    let at = put_field(out, at, Ok(pattern), b' ');
    if !is_finite(pattern) {
        return put_text(out, at, b"refused 9\n");
    }
    put_places(out, at, places_of(pattern))
}

// The line for a line that was read.
pub fn put_line(out: &mut [u8], at: usize, line: Line) -> usize
    requires { at + 45 ≤ length out.old }
    ensures { Put at 45 (text_of line ++ line_feed) out.old result out.new }
{
    match line {
        Line::Digits { count, value } if count == 8 => put_pattern(out, at, value),
        _ => put_text(out, at, b"bad line\n"),
    }
}
