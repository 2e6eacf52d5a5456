//! Memory regions.
ghost use Rattle.std.specs.Prelude.{◌≡◌, Some, OnOk, IfErr, IfSome};
ghost use Rattle.fabric_uses.specs.Uses.{bytes_under};

use fabric::{Access, Buf, Calls, EndpointOver, Refused};

/// Lets peers read and write the bytes under the key. They are the region's at once; a refused buffer comes back.
pub fn publish<E: Calls + Drop>(
    endpoint: &mut EndpointOver<E>,
    key: u64,
    buf: Buf,
) -> Result<(), Refused>
    ensures held { OnOk result (bytes_under key (E.seen endpoint.new) ≡ Some buf) }
    ensures kept { IfErr result (λ r. r.buf ≡ buf) }
{
    let access = Access {
        remote_read: true,
        remote_write: true,
    };
    endpoint.reg(key, access, buf)
}

/// Takes a region back from its key: the bytes are those that peers left in it.
pub fn withdraw<E: Calls + Drop>(endpoint: &mut EndpointOver<E>, key: u64) -> Option<Buf>
    ensures { IfSome result (λ buf. bytes_under key (E.seen endpoint.old) ≡ Some buf) }
{
    match endpoint.close_region(key) {
        Ok(buf) => Some(buf),
        Err(_) => None,
    }
}
