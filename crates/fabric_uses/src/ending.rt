//! Operations that end.
ghost use Rattle.std.specs.Prelude.{◌≡◌, ◌<◌, IsTrue};
ghost use Rattle.fabric.specs.State.{tally_of};
ghost use Rattle.fabric_uses.specs.Uses.{IsQuiet};

use fabric::{Calls, Class, EndpointOver};

/// Moves what can be moved, and tells whether every operation has ended.
pub fn is_quiet<E: Calls + Drop>(endpoint: &mut EndpointOver<E>) -> bool
    ensures { IsTrue result → IsQuiet (E.seen endpoint.new) }
{
    match endpoint.flush(16) {
        Ok(done) => done,
        Err(_) => false,
    }
}

fn counts_past<E: Calls + Drop>(endpoint: &mut EndpointOver<E>, before: u64, times: u32) -> bool
    requires { before < u64.MAX }
    ensures { IsTrue result → before < (tally_of (E.seen endpoint.new).held.state.counters Class.Send).ok }
{
    match endpoint.cntr_wait(Class::Send, before + 1, times) {
        Ok(counted) => counted,
        Err(_) => false,
    }
}

/// Sends a copy of the bytes, and makes progress until one more message is counted as sent than before, at most so many times.
pub fn send_counted<E: Calls + Drop>(
    endpoint: &mut EndpointOver<E>,
    dest: u32,
    bytes: &[u8],
    times: u32,
) -> bool
    ensures { IsTrue result → (tally_of (E.seen endpoint.old).held.state.counters Class.Send).ok < (tally_of (E.seen endpoint.new).held.state.counters Class.Send).ok }
{
    let before = endpoint.cntr_read(Class::Send);
    if before == u64::MAX {
        return false;
    }
    if endpoint.inject(dest, bytes, None).is_err() {
        return false;
    }
    counts_past(endpoint, before, times)
}
