// Input that comes in blocks of any size: a line may begin in one block and end in another.
ghost use Rattle.std.specs.Prelude.{◌≡◌, ◌*◌, ◌≤◌, length};
ghost use Rattle.lines.specs.Printing.{Put};
ghost use Rattle.lines.specs.Blocks.{ended, begun, end_text};

use crate::printing::put_line;
use crate::reading::Line;

// The line that is begun where a block of input ends, and how many bytes were printed for the lines that ended in it.
#[derive(Clone, Copy)]
pub struct Block {
    pub line: Line,
    pub printed: usize,
}

// A block of input: the lines that end in it are printed at the start of `out`.
pub fn answer_block(first: Line, input: &[u8], out: &mut [u8]) -> Block
    requires { 45 * length input.now ≤ length out.old }
    ensures { (result.line ≡ begun first input.now) × Put 0 (45 * length input.now) (ended first input.now) out.old result.printed out.new }
{
    let mut line = first;
    let mut printed = 0;
    for &b in input {
        if b == b'\n' {
            printed = put_line(out, printed, line);
            line = Line::new();
        } else {
            line = line.push(b);
        }
    }
    Block { line, printed }
}

// The end of input ends a line that has begun.
pub fn answer_end(line: Line, out: &mut [u8]) -> usize
    requires { 45 ≤ length out.old }
    ensures { Put 0 45 (end_text line) out.old result out.new }
{
    match line {
        Line::Digits { count, .. } if count == 0 => 0,
        _ => put_line(out, 0, line),
    }
}
