//! What an application asks for (fi_getinfo(3)).
ghost use Rattle.std.specs.Prelude.{◌≡◌, Some, None, true, false, OnErr, IfOk, IfErr};
ghost use Rattle.fab_base.specs.Granted.{with_cap};
ghost use Rattle.fab_base.specs.declared.faults.Fault.TheVariants.{NoData};
ghost use Rattle.fab_base.specs.declared.caps.Api.TheVariants.{One};
ghost use Rattle.fab_model.specs.Negotiation.{no_hints};
ghost use Rattle.fabric.specs.Asking.{granted_to};

use fab_base::{Api, Cap, Caps, Fault, Hints as Wishes, Info};
use fab_info::getinfo;

/// What is asked for: a version of the interface, wishes, and whether a message, a write or an atomic that succeeds writes a
/// completion only where its flags ask for one (FI_SELECTIVE_COMPLETION of fi_endpoint(3)). Receives, reads and looks always do.
/// And whether threads that wait may sleep, so that whoever posts a frame wakes them.
///
/// Whoever asks for no capability is granted all that are on offer, directed receives (`Cap::DirectedRecv`) among them. Whoever asks
/// for some is granted directed receives only where they are among these. Where they are not granted, receives take messages of any
/// sender, and the source that a receive names is ignored.
#[derive(Clone, Copy, Drop)]
pub struct Hints {
    pub api: Api,
    pub wishes: Wishes,
    pub selective: bool,
    pub sleeping: bool,
}

impl Hints {
    /// No wish, in the first version, with all completions.
    pub fn new() -> Hints
        ensures { result ≡ record { api = One; wishes = no_hints; selective = false; sleeping = false } }
    {
        Hints {
            api: Api::One,
            wishes: Wishes {
                caps: Caps::none(),
                peers: None,
                lane: None,
                pool: None,
                tx: None,
                rx: None,
                cq: None,
                log: None,
                inject: None,
                message: None,
            },
            selective: false,
            sleeping: false,
        }
    }

    /// In this version of the interface.
    pub fn api(self, api: Api) -> Hints
        ensures { result ≡ record self { api = api } }
    {
        Hints { api, ..self }
    }

    /// With completions only where flags ask for one.
    pub fn selective(self) -> Hints
        ensures { result ≡ record self { selective = true } }
    {
        Hints {
            selective: true,
            ..self
        }
    }

    /// With threads that may sleep where they wait (`wait_asleep`), or without, which costs nothing. With it, whoever posts a frame reads
    /// one word more, and wakes those that sleep.
    pub fn sleeping(self, sleeping: bool) -> Hints
        ensures { result ≡ record self { sleeping = sleeping } }
    {
        Hints { sleeping, ..self }
    }

    /// With these capabilities.
    pub fn caps(self, caps: Caps) -> Hints
        ensures { result ≡ record self { wishes = record (self.wishes) { caps = caps } } }
    {
        let mut hints = self;
        hints.wishes.caps = caps;
        hints
    }

    /// With one more capability.
    pub fn cap(self, cap: Cap) -> Hints
        ensures { result ≡ record self { wishes = record (self.wishes) { caps = with_cap cap self.wishes.caps } } }
    {
        let mut hints = self;
        hints.wishes.caps = hints.wishes.caps.with(cap);
        hints
    }

    /// For so many peers: 1 to 32, in the second version to 64; 32 without a wish.
    pub fn peers(self, peers: u32) -> Hints
        ensures { result ≡ record self { wishes = record (self.wishes) { peers = Some peers } } }
    {
        let mut hints = self;
        hints.wishes.peers = Some(peers);
        hints
    }

    /// With so many frames in each lane: 1 to 1,024; 64 without a wish.
    pub fn lane(self, frames: u32) -> Hints
        ensures { result ≡ record self { wishes = record (self.wishes) { lane = Some frames } } }
    {
        let mut hints = self;
        hints.wishes.lane = Some(frames);
        hints
    }

    /// With so many slots of 4,096 bytes in the pool of each peer: 1 to 1,024; 32 without a wish.
    pub fn pool(self, slots: u32) -> Hints
        ensures { result ≡ record self { wishes = record (self.wishes) { pool = Some slots } } }
    {
        let mut hints = self;
        hints.wishes.pool = Some(slots);
        hints
    }

    /// With so many transmit operations under way: 1 to 1,024; 64 without a wish.
    pub fn tx(self, operations: u32) -> Hints
        ensures { result ≡ record self { wishes = record (self.wishes) { tx = Some operations } } }
    {
        let mut hints = self;
        hints.wishes.tx = Some(operations);
        hints
    }

    /// With so many posted receives: 1 to 4,096; 256 without a wish.
    pub fn rx(self, receives: u32) -> Hints
        ensures { result ≡ record self { wishes = record (self.wishes) { rx = Some receives } } }
    {
        let mut hints = self;
        hints.wishes.rx = Some(receives);
        hints
    }

    /// With so many entries in the completion queue: 2 to 65,536; 1,024 without a wish.
    pub fn cq(self, entries: u32) -> Hints
        ensures { result ≡ record self { wishes = record (self.wishes) { cq = Some entries } } }
    {
        let mut hints = self;
        hints.wishes.cq = Some(entries);
        hints
    }

    /// With messages, reads and writes of so many bytes, or none is granted; what is granted is the most that the version has.
    pub fn message(self, bytes: u32) -> Hints
        ensures { result ≡ record self { wishes = record (self.wishes) { message = Some bytes } } }
    {
        let mut hints = self;
        hints.wishes.message = Some(bytes);
        hints
    }

    /// With inject calls of so many bytes, or none is granted; what is granted is the most that there is.
    pub fn inject(self, bytes: u32) -> Hints
        ensures { result ≡ record self { wishes = record (self.wishes) { inject = Some bytes } } }
    {
        let mut hints = self;
        hints.wishes.inject = Some(bytes);
        hints
    }

    /// What is granted to whoever asks so (fi_getinfo). `NoData` exactly where something asked for can't be had.
    pub fn granted(&self) -> Result<Info, Fault>
        ensures granted { IfOk result (λ info. granted_to self.now ≡ Some info) }
        ensures refused { OnErr result (granted_to self.now ≡ None) }
        ensures no_data { IfErr result (λ fault. fault ≡ NoData) }
    {
        getinfo(self.api, Some(&self.wishes))
    }
}
