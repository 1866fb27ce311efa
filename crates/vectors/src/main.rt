// The vectors: each row of standard input is a call and its answer. The program makes the call, compares, and prints how many rows
// agree, and how many there are. What a row is, whether it agrees and how many do are proved; what is printed is compared.
#![tactic(auto)]

mod calls;
mod columns;
mod rows;

ghost use Rattle.std.specs.Prelude.{◌≤◌, length};

use rows::Tally;
use std::io::Read;

// 1,024 rows.
const BLOCK: usize = 1024 * columns::ROW_LENGTH;

// Reads blocks until nothing comes any more, and says on standard error where it cannot read or write. A proved loop has to end, so this
// one counts its turns up to a number that no run uses up.
fn main(rt: HostRuntime) {
    let mut block = [0u8; BLOCK];
    let mut tally = Tally { agree: 0, all: 0 };
    let mut stdin = rt.reader();
    for _ in 0..u64::MAX {
        let n = read_full(&mut stdin, &mut block);
        if n == 0 {
            break;
        }
        tally = rows::count(tally, &block[..n]);
    }
    if !is_at_end(&mut stdin) {
        report_unread(&rt);
        return;
    }
    if !print(&rt, tally) {
        report_unwritten(&rt);
    }
}

// Reads until the block is full, the input ends or cannot be read, and answers how many bytes it put at the start of the block. The loop
// ends by what was read, and goes over no list.
fn read_full(stdin: &mut impl Read, block: &mut [u8]) -> usize
    ensures { result ≤ length block.new }
{
    let mut done = 0;
    while done < block.len() {
        let Ok(n) = stdin.read(&mut block[done..]) else {
            break;
        };
        if n == 0 {
            break;
        }
        done += n;
    }
    done
}

// Where nothing came, the input has ended or cannot be read: only at its end does one more read answer 0.
fn is_at_end(stdin: &mut impl Read) -> bool {
    let mut more = [0u8; 1];
    matches!(stdin.read(&mut more), Ok(0))
}

fn print(rt: &impl Print, tally: Tally) -> bool {
    let agree = tally.agree;
    let all = tally.all;
    println!(rt; "{agree} of {all} rows agree").is_ok()
}

fn report_unread(rt: &impl Eprint) {
    let _ = eprintln!(rt; "vectors: cannot read standard input");
}

fn report_unwritten(rt: &impl Eprint) {
    let _ = eprintln!(rt; "vectors: cannot write standard output");
}
