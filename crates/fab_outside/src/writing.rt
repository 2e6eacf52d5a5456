//! Writing a whole text to a sink that takes some bytes at a time.
ghost use Rattle.std.specs.Prelude.{◌≡◌, ℕ, ◌<◌, ◌≤◌, OnOk, OnErr, length, take};
ghost use Rattle.fab_base.specs.Counts.{Rose};
ghost use Rattle.std.specs.Io.KnownBytes.{append_known};

use crate::outside::{Failed, Sink};

/// Writes all of these bytes, in as many calls as it takes.
///
/// # Errors
///
/// `Failed` only where the sink's count of faults rose in this call. Some of the bytes may have been
/// written then, from the first on.
pub fn write_all<S: Sink>(sink: &mut S, bytes: &[u8]) -> Result<(), Failed>
    ensures never_falls { S.faults sink.old ≤ S.faults sink.new }
    ensures ok { OnOk result (S.bytes sink.new ≡ append_known (S.bytes sink.old) bytes.now) }
    ensures failed { OnErr result (Rose (S.faults sink.old) (S.faults sink.new)) }
    ensures err { OnErr result ((n : ℕ) × (n < length bytes.now)
        × (S.bytes sink.new ≡ append_known (S.bytes sink.old) (take n bytes.now))) }
{
    let mut rest = bytes;
    while !rest.is_empty() {
        let taken = sink.write(rest)?;
        rest = &rest[taken..];
    }
    Ok(())
}
