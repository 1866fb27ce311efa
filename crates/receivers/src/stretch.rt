// The calmer stretch of two logs, which log that is, and why there is none. A stretch is a start and a length in each call, as the C
// functions take it.
ghost use Rattle.std.specs.Prelude.{◌≡◌};
ghost use Rattle.format.specs.Given.{given_at};
ghost use Rattle.receivers.specs.Answers.{calmer_given};
ghost use Rattle.receivers.specs.Stretches.{ends_within, finite_within, calmer_refusal, calmer_log, calmer_stretch, StandsIn};
ghost use Rattle.receivers.specs.Spreads.{Contains};

use crate::Log;
use crate::spread::is_calm_as;
use binary32::finite::first_not_finite;
use format::{ListRefusal, Refusal};

// Is the stretch not empty, and does it end within the log? By subtraction, since start + length may overflow.
fn ends_within(log: &[u32], start: usize, length: usize) -> bool
    ensures { result ≡ ends_within log.now start length }
{
    length != 0 && start <= log.len() && length <= log.len() - start
}

// Refuses 9 within the stretch, with its index in the log.
fn check_finite(log: &[u32], start: usize, length: usize) -> Result<(), ListRefusal>
    requires { Contains log.now start length }
    ensures { given_at result ≡ finite_within log.now start length }
{
    let bad = first_not_finite(&log[start..start + length]);
    if bad < length {
        return Err(ListRefusal::Entry(Refusal::NotFinite, start + bad));
    }
    Ok(())
}

// Refuses 11, 17, and 9 within the stretch with its index in the log, the first log before the second.
pub fn calmer_refusal(
    first: &[u32],
    second: &[u32],
    start: usize,
    length: usize,
) -> Result<(), ListRefusal>
    ensures { given_at result ≡ calmer_refusal first.now second.now start length }
{
    if first.len() != second.len() {
        return Err(Refusal::LengthsDiffer.into());
    }
    if !ends_within(first, start, length) {
        return Err(Refusal::StretchOutside.into());
    }
    check_finite(first, start, length)?;
    check_finite(second, start, length)
}

// The log with the smaller difference between its greatest and its least value in the stretch, the first log if equal. Refuses as
// calmer_refusal does.
pub fn calmer_log(
    first: &[u32],
    second: &[u32],
    start: usize,
    length: usize,
) -> Result<Log, ListRefusal>
    ensures { calmer_given result ≡ calmer_log first.now second.now start length }
{
    calmer_refusal(first, second, start, length)?;
    let end = start + length;
    if is_calm_as(&first[start..end], &second[start..end]) {
        Ok(Log::First)
    } else {
        Ok(Log::Second)
    }
}

// That stretch of the calmer log, a part of that log's own memory. Where calmer_refusal refuses it is empty, and may be a part of either
// log.
pub fn calmer_stretch<'a>(
    first: &'a [u32],
    second: &'a [u32],
    start: usize,
    length: usize,
) -> &'a [u32]
    ensures memory { StandsIn (calmer_log first.now second.now start length) first.entry.ref_ptr second.entry.ref_ptr start result.ref_ptr }
    ensures contents { result.now ≡ calmer_stretch first.now second.now start length }
{
    match calmer_log(first, second, start, length) {
        Ok(Log::First) => &first[start..start + length],
        Ok(Log::Second) => &second[start..start + length],
        Err(_) => &first[..0],
    }
}
