// Standard input to standard output: each line of the input is answered by a line.
use crate::blocks::{answer_block, answer_end};
use crate::reading::Line;
use std::io::Read;

// Reads block by block until the input ends, and stops with a word on standard error where it cannot read or write any more. A proved loop
// has to end, so this one counts its turns up to a number that no run uses up.
pub fn answer_input(rt: &(impl Input + Print + Eprint)) {
    let mut stdin = rt.reader();
    let mut input = [0u8; 16384];
    let mut out = [0u8; 737280];
    let mut line = Line::new();
    for _ in 0..u64::MAX {
        let Ok(n) = stdin.read(&mut input) else {
            report_unread(rt);
            return;
        };
        if n == 0 {
            break;
        }
        let block = answer_block(line, &input[..n], &mut out);
        if !print(rt, &out[..block.printed]) {
            return;
        }
        line = block.line;
    }
    let printed = answer_end(line, &mut out);
    print(rt, &out[..printed]);
}

fn report_unread(rt: &impl Eprint) {
    let _ = eprintln!(rt; "places: cannot read standard input");
}

// Writes all of the text, or says that it cannot be written.
fn print(rt: &(impl Print + Eprint), text: &[u8]) -> bool {
    let written = Print::write_all(rt, text).is_ok();
    if !written {
        let _ = eprintln!(rt; "places: cannot write standard output");
    }
    written
}
