//! Times work in rounds, and prints a row for it.
//!
//! There is a row for each aim, and few others, since the gate proves this program too. What is timed
//! is a closure, whose result is an `Option`. A keystroke is taken out again, so nothing is copied
//! between rounds.

use std::io;
use std::rt::Runtime;
use std::time::{Duration, Instant};

/// The least time of so many rounds is printed.
const ROUNDS: u32 = 5;

/// Times work on so many bytes, lines, entries or changes. A round does it `repeats` times. It is
/// passed how often it was done before, and fails where it has no result.
///
/// The sum of a round's results goes to standard output: it is the same on every machine. The time
/// of doing the work once goes to standard error, with what is added to the sum in a microsecond:
/// megabytes a second, if the work results in a number of bytes.
pub fn time<R: Runtime, W: FnMut(u32) -> Option<usize>>(
    rt: &R,
    what: &str,
    size: usize,
    repeats: u32,
    mut work: W,
) -> io::Result<()>
    requires { W.IsAlwaysCallable work }
{
    let mut least = Duration::MAX;
    let mut sum: usize = 0;
    let mut turn: u32 = 0;
    for _ in 0..ROUNDS {
        let start = Instant::now(rt)?;
        sum = 0;
        for _ in 0..repeats {
            sum = sum.wrapping_add(done(work(turn))?);
            turn = turn.wrapping_add(1);
        }
        least = least.min(start.elapsed(rt)?);
    }
    let nanoseconds = least.as_nanos();
    let each = nanoseconds / u128::from(repeats.max(1));
    let rate = (sum as u128).saturating_mul(1_000) / nanoseconds.max(1);
    println!(rt; "{what}, {size}: {repeats} times, {sum}")?;
    eprintln!(rt; "{what}, {size}: {each} ns, {rate} a microsecond")
}

/// Returns what work resulted in, or an error if a call of it failed.
pub fn done<T>(value: Option<T>) -> io::Result<T> {
    match value {
        Some(value) => Ok(value),
        None => Err(io::Error::other("a call of the next row failed")),
    }
}
