// Stretches of two logs: for each a line with its start and length, the patterns of the part that `calmer_stretch` hands back, and what
// `calmer_refusal` tells. What the two calls answer is proved; what is printed is compared.
#![tactic(auto)]

use format::ListRefusal;
use receivers::stretch::{calmer_refusal, calmer_stretch};
use std::io;

fn put_pattern(rt: &impl Print, pattern: u32) -> io::Result<()> {
    print!(rt; " {pattern:08x}")
}

fn put_part(rt: &impl Print, part: &[u32]) -> io::Result<()> {
    if part.is_empty() {
        print!(rt; " empty")?;
    }
    for &pattern in part {
        put_pattern(rt, pattern)?;
    }
    Ok(())
}

fn put_refusal(rt: &impl Print, check: Result<(), ListRefusal>) -> io::Result<()> {
    match check {
        Ok(()) => println!(rt; ", passed"),
        Err(ListRefusal::Whole(why)) => {
            let number = u32::from(why);
            println!(rt; ", refused {number}")
        }
        Err(ListRefusal::Entry(why, index)) => {
            let number = u32::from(why);
            println!(rt; ", refused {number} at {index}")
        }
    }
}

fn put_stretch<'a>(
    rt: &impl Print,
    first: &'a [u32],
    second: &'a [u32],
    start: usize,
    length: usize,
) -> io::Result<()> {
    print!(rt; "{start} {length}:")?;
    put_part(rt, calmer_stretch(first, second, start, length))?;
    put_refusal(rt, calmer_refusal(first, second, start, length))
}

// Spreads of 2 and 1, of 6 and 10.5, of 1 and 1, of 0 and 0; then 11, 17 and 9.
fn put_stretches<'a>(
    rt: &impl Print,
    first: &'a [u32],
    second: &'a [u32],
    shorter: &'a [u32],
) -> io::Result<()> {
    put_stretch(rt, first, second, 1, 3)?;
    put_stretch(rt, first, second, 3, 2)?;
    put_stretch(rt, first, second, 2, 2)?;
    put_stretch(rt, first, second, 4, 1)?;
    // 11 before 17
    put_stretch(rt, first, shorter, 1, 3)?;
    put_stretch(rt, first, shorter, 9, 0)?;
    // a length of zero, within and at the end; past the end by one, from the end on, and where start + length is 2 ^ 64; 17 before 9
    put_stretch(rt, first, second, 1, 0)?;
    put_stretch(rt, first, second, 9, 0)?;
    put_stretch(rt, first, second, 6, 4)?;
    put_stretch(rt, first, second, 9, 1)?;
    put_stretch(rt, first, second, 18446744073709551615, 1)?;
    put_stretch(rt, first, second, 0, 10)?;
    // in the first log; in both, the first log's index though it is the higher; in the second log
    put_stretch(rt, first, second, 4, 2)?;
    put_stretch(rt, first, second, 6, 3)?;
    put_stretch(rt, first, second, 6, 2)
}

// Where something cannot be written, the rest of its group of lines is left out.
fn main(rt: HostRuntime) {
    // 1, 3, 2 and 8 from entry 1 on; an infinity at 0 and at 8, NaN at 5
    let first = [
        0x7f800000u32,
        0x3f800000,
        0x40400000,
        0x40000000,
        0x41000000,
        0x7fc00000,
        0x3f800000,
        0x3f800000,
        0xff800000,
    ];
    // 2, 1.5, 2.5 and -8 from entry 1 on; an infinity at 6
    let second = [
        0x40a00000u32,
        0x40000000,
        0x3fc00000,
        0x40200000,
        0xc1000000,
        0x3f800000,
        0x7f800000,
        0x40000000,
        0x40000000,
    ];
    let shorter = [0x40a00000u32, 0x40000000, 0x3fc00000, 0x40200000];
    let _ = put_stretches(&rt, &first, &second, &shorter);
    // -1 and 2 ^ 24 beside 0 and 2 ^ 24: the spreads are 2 ^ 24 + 1 and 2 ^ 24, equal if rounded to 24 digits
    let _ = put_stretch(&rt, &[0xbf800000u32, 0x4b800000], &[0u32, 0x4b800000], 0, 2);
}
