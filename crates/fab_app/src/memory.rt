//! Memory regions (fi_mr(3)).
ghost use Rattle.std.specs.Prelude.{◌≡◌, ◌≢◌, OnOk, IfOk, IfErr};
ghost use Rattle.std.specs.Option.{option_map};
ghost use Rattle.fab_base.specs.declared.faults.Fault.TheVariants.{NoMemory as LacksMemory};
ghost use Rattle.fab_base.specs.declared.peers.LineResult.TheVariants.{Done, Refused as Answer, Bytes};
ghost use Rattle.fab_model.specs.Calls.{Reg, Close, Put, do_call, region_of};
ghost use Rattle.fab_face.specs.Answers.{Locally};

use crate::endpoint::{Calls, Endpoint};
use fab_base::{Access, Buf, Fault, Refused};

impl<E: Calls + Drop> Endpoint<E> {
    /// Registers a region of this endpoint under its key (fi_mr_reg). The buffer, which may have no bytes, stays with the endpoint
    /// until `close_region`, or comes back in the refusal. `NoKey` where the key is taken, `NotSupported` where a right is not
    /// granted; `NoMemory` only where nothing else stands against it.
    pub fn reg(&mut self, key: u64, access: Access, buf: Buf) -> Result<(), Refused>
        ensures ok { OnOk result (Locally (Reg key access buf) Done (E.seen self.old) (E.seen self.new)) }
        ensures err { IfErr result (λ r. (r.buf ≡ buf) × (E.seen self.new ≡ E.seen self.old) × (r.why ≢ LacksMemory → Locally (Reg key access buf) (Answer r.why) (E.seen self.old) (E.seen self.new))) }
        ensures lacks { IfErr result (λ r. r.why ≡ LacksMemory → (do_call (E.seen self.old).held.state (Reg key access buf)).0 ≡ Done) }
    {
        self.inner.reg(key, access, buf)
    }

    /// Closes a region and hands its bytes back (fi_close of fi_mr(3)). `NoKey` where there is none.
    pub fn close_region(&mut self, key: u64) -> Result<Buf, Fault>
        ensures ok { IfOk result (λ buf. Locally (Close key) (Bytes buf) (E.seen self.old) (E.seen self.new)) }
        ensures err { IfErr result (λ why. Locally (Close key) (Answer why) (E.seen self.old) (E.seen self.new)) }
    {
        self.inner.close_region(key)
    }

    /// Lends the bytes of a region. `None` where there is none.
    pub fn region_bytes(&self, key: u64) -> Option<&[u8]>
        ensures { option_map (λ b. b.now) result ≡ option_map (λ r. r.bytes) (region_of (E.seen self.now).held.state key) }
    {
        self.inner.region_bytes(key)
    }

    /// Writes into a region of one's own, from the byte `at` on. `NoKey` where there is none, `Range` where the bytes would end
    /// behind its end; nothing is written then.
    pub fn put(&mut self, key: u64, at: u64, src: &[u8]) -> Result<(), Fault>
        ensures ok { OnOk result (Locally (Put key at src.now) Done (E.seen self.old) (E.seen self.new)) }
        ensures err { IfErr result (λ why. Locally (Put key at src.now) (Answer why) (E.seen self.old) (E.seen self.new)) }
    {
        self.inner.put(key, at, src)
    }
}
