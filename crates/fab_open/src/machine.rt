//! The machine under an endpoint: a core with matching in hashed bins, under a name without parameters.
//!
//! A caller that is given a type with parameters compares each clause of its calls over all of them; of this one it
//! compares names alone.
ghost use Rattle.std.specs.Prelude.{◌≡◌, ◌≤◌, length, IfOk, IfErr};
ghost use Rattle.fab_open.specs.Machine.{machine_held};
ghost use Rattle.fab_open.specs.Opening.{unused};

use fab_av::{Av, InsertReport};
use fab_base::{
    Access, Buf, Class, Entry, ErrEntry, Fault, FrameHead, Info, NoMemory, Refused, Text,
};
use fab_core::Core;
use fab_face::keeping::{Addressing, Counting};
use fab_face::looking::{Look, Looking};
use fab_face::machine::{Ask, Machine, Message, Next};
use fab_face::multis::{MultiAsk, MultiReceiving};
use fab_face::probing::{Probed, Probing};
use fab_face::requesting::{Request, Requesting};
use fab_face::targets::Targets;
use fab_match::BinMatcher;
use fab_mr::Regions;
use std::alloc::Global;

/// The machine of an endpoint, with matching in hashed bins.
pub struct BinMachine {
    pub(crate) core: Core<BinMatcher>,
}

// Not derived, so that a crate which lets endpoints go proves one call for their machines, and not the end of all that these are made of.
impl Drop for BinMachine {
    fn drop(self) {
        let BinMachine { core } = self;
        drop(core);
    }
}

impl BinMachine {
    /// The machine of an endpoint with these sizes and capabilities, for the peers of the address vector. It takes all
    /// memory that its calls need, but for messages that come unexpected, for requests of peers and for the replies that
    /// they are owed; where there is none, the address vector comes back.
    pub fn new(alloc: Global, info: &Info, selective: bool, av: Av) -> Result<BinMachine, Av>
        requires size { 2 ≤ info.now.cq }
        ensures ok { IfOk result (λ machine. machine.core ≡ unused av info.now selective) }
        ensures err { IfErr result (λ back. back ≡ av) }
    {
        let core = Core::new(alloc, info, selective, av)?;
        Ok(BinMachine { core })
    }

    /// Gives up everything but the address vector and the regions. Buffers of unfinished operations are dropped.
    pub fn into_parts(self) -> (Av, Regions)
        ensures av { result.0 ≡ self.core.av }
        ensures peers { result.0.peers ≡ length self.core.tx.tx.sent }
        ensures regions { result.1 ≡ self.core.target.regions }
    {
        let BinMachine { core } = self;
        core.into_parts()
    }
}

impl Machine for BinMachine {
    ghost held = { machine_held };

    fn known(&self) {
        self.core.known()
    }

    fn next(&self, dest: u32) -> Option<Next<'_>> {
        self.core.next(dest)
    }

    fn place(&self, dest: u32) -> u32 {
        self.core.place(dest)
    }

    fn sent_fits(&self, dest: u32) -> bool {
        self.core.sent_fits(dest)
    }

    fn go_on(&mut self, dest: u32, place: u32) {
        self.core.go_on(dest, place)
    }

    fn finish(&mut self, dest: u32) {
        self.core.finish(dest)
    }

    fn take(&mut self, source: u32, head: &FrameHead, bytes: &[u8]) -> Result<bool, NoMemory> {
        self.core.take(source, head, bytes)
    }

    fn is_draw_due(&self) -> bool {
        self.core.is_draw_due()
    }

    fn draw(&mut self) -> bool {
        self.core.draw()
    }

    fn send_fault(&self, message: &Message, bytes: &[u8]) -> Option<Fault> {
        self.core.send_fault(message, bytes)
    }

    fn is_full(&self) -> bool {
        self.core.is_full()
    }

    fn most_tx(&self) -> u32 {
        self.core.most_tx()
    }

    fn peer_at(&self, index: u32) -> Option<u32> {
        self.core.peer_at(index)
    }

    fn send(&mut self, message: &Message, buf: Buf) {
        self.core.send(message, buf)
    }

    fn inject(&mut self, message: &Message, bytes: &[u8]) {
        self.core.inject(message, bytes)
    }

    fn post_fault(&self, ask: &Ask, buf: &Buf) -> Option<Fault> {
        self.core.post_fault(ask, buf)
    }

    fn post(&mut self, ask: &Ask, buf: Buf) -> Result<(), Refused> {
        self.core.post(ask, buf)
    }

    fn may_cancel(&self, ctx: Option<u64>) -> bool {
        self.core.may_cancel(ctx)
    }

    fn cancel(&mut self, ctx: Option<u64>) -> Result<(), Fault> {
        self.core.cancel(ctx)
    }

    fn is_cq_empty(&self) -> bool {
        self.core.is_cq_empty()
    }

    fn pop(&mut self) -> Result<Entry, Fault> {
        self.core.pop()
    }

    fn pop_error(&mut self) -> Result<ErrEntry, Fault> {
        self.core.pop_error()
    }

    fn awaiting(&self) -> u32 {
        self.core.awaiting()
    }

    fn deferred(&self) -> u32 {
        self.core.deferred()
    }
}

impl Looking for BinMachine {
    fn look_fault(&self, look: &Look) -> Option<Fault> {
        self.core.look_fault(look)
    }

    fn look(&mut self, look: &Look) -> Result<(), Fault> {
        self.core.look(look)
    }

    fn take_fault(&self, buf: &Buf, ctx: u64) -> Option<Fault> {
        self.core.take_fault(buf, ctx)
    }

    fn take_claimed(&mut self, buf: Buf, ctx: u64) -> Result<(), Refused> {
        self.core.take_claimed(buf, ctx)
    }

    fn drop_fault(&self, ctx: u64) -> Option<Fault> {
        self.core.drop_fault(ctx)
    }

    fn drop_claimed(&mut self, ctx: u64) -> Result<(), Fault> {
        self.core.drop_claimed(ctx)
    }
}

impl MultiReceiving for BinMachine {
    fn sharing(&self) {
        self.core.sharing()
    }

    fn multi_fault(&self, ask: &MultiAsk, buf: &Buf) -> Option<Fault> {
        self.core.multi_fault(ask, buf)
    }

    fn post_multi(&mut self, ask: &MultiAsk, buf: Buf) -> Result<(), Refused> {
        self.core.post_multi(ask, buf)
    }

    fn multi_bytes(&self, ctx: u64, at: u32, len: u32) -> Option<&[u8]> {
        self.core.multi_bytes(ctx, at, len)
    }
}

impl Requesting for BinMachine {
    fn request_fault(&self, request: &Request, bytes: &[u8], compared: &[u8]) -> Option<Fault> {
        self.core.request_fault(request, bytes, compared)
    }

    fn request_owned(&mut self, request: &Request, buf: Buf) {
        self.core.request_owned(request, buf)
    }

    fn request_copied(
        &mut self,
        request: &Request,
        bytes: &[u8],
        compared: &[u8],
        buf: Option<Buf>,
    ) {
        self.core.request_copied(request, bytes, compared, buf)
    }
}

impl Targets for BinMachine {
    fn reg(&mut self, key: u64, access: Access, buf: Buf) -> Result<(), Refused> {
        self.core.reg(key, access, buf)
    }

    fn close_region(&mut self, key: u64) -> Result<Buf, Fault> {
        self.core.close_region(key)
    }

    fn region_bytes(&self, key: u64) -> Option<&[u8]> {
        self.core.region_bytes(key)
    }

    fn put(&mut self, key: u64, at: u64, src: &[u8]) -> Result<(), Fault> {
        self.core.put(key, at, src)
    }
}

impl Counting for BinMachine {
    fn successes(&self, class: Class) -> u64 {
        self.core.successes(class)
    }

    fn errors(&self, class: Class) -> u64 {
        self.core.errors(class)
    }

    fn count_up(&mut self, class: Class, n: u64) {
        self.core.count_up(class, n)
    }
}

impl Addressing for BinMachine {
    fn insert(&mut self, names: &[Text]) -> Result<InsertReport, NoMemory> {
        self.core.insert(names)
    }

    fn remove(&mut self, index: u32) -> Result<(), Fault> {
        self.core.remove(index)
    }

    fn index_of(&self, peer: u32) -> Option<u32> {
        self.core.index_of(peer)
    }
}

impl Probing for BinMachine {
    fn probe(&self, source: Option<u32>, tag: u64, ignore: u64) -> Result<Option<Probed>, Fault> {
        self.core.probe(source, tag, ignore)
    }

    fn is_directed(&self) -> bool {
        self.core.is_directed()
    }
}
