//! How often a part is timed, and how long ago a moment was.
use std::io;
use std::time::{Clock, Instant};

/// How many runs are made, of which the best counts.
pub(crate) const RUNS: u32 = 40;

/// How many nanoseconds ago this was.
pub(crate) fn nanos_since<R: Clock>(rt: &R, start: &Instant) -> io::Result<u64> {
    let nanos = start.elapsed(rt)?.as_nanos();
    Ok(u64::try_from(nanos).unwrap_or(u64::MAX))
}

/// Tenths of a nanosecond for each of so many turns since this moment.
pub(crate) fn tenths_since<R: Clock>(rt: &R, start: &Instant, turns: u64) -> io::Result<u64> {
    let nanos = nanos_since(rt, start)?;
    Ok(nanos.saturating_mul(10) / turns.max(1))
}
