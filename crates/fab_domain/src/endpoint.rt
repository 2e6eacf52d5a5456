//! An endpoint over lanes, under a name without parameters.
//!
//! A caller that is given a type with parameters compares each clause of its calls over all of them; of this one it
//! compares names alone. What contracts see of it is `ring_seen`.
ghost use Rattle.std.specs.Prelude.{◌≡◌, true};
ghost use Rattle.fab_ring.specs.Ports.{peers_of};
ghost use Rattle.fab_table.specs.declared.lane_table.LaneTable.{LaneTable};
ghost use Rattle.fab_domain.specs.Domain.{port_of};
ghost use Rattle.fab_domain.specs.Seen.{ring_seen};

use fab_av::InsertReport;
use fab_base::{
    Access, AtomicOp, Buf, Class, Entry, ErrEntry, Fault, Flags, NoMemory, Num, Refused, Text,
};
use fab_bell::{Bell, Sleeper, Sleeps};
use fab_face::calls::{
    Addresses, Counters, Logs, Looks, Messages, Multis, Progress, Receives, Regions, Requests, Sees,
};
use fab_face::events::{Event, Moved};
use fab_face::probing::{Places, Probed, Probes};
use fab_open::{Closed, Endpoint, close};
use fab_ring::RingPort;
use std::marker::Model;

/// An endpoint over lanes in memory that all peers of its domain share. Its calls are those of the traits of
/// `fab_face`, with what each promises there.
pub struct RingEndpoint {
    pub(crate) inner: Endpoint<RingPort>,
    /// With it the peers that sleep are woken, where the domain was opened so. Contracts do not see it.
    pub(crate) bell: Option<Bell>,
}

// Not derived, for the same reason as that of the machine (`fab_open`).
impl Drop for RingEndpoint {
    fn drop(self) {
        let RingEndpoint { inner, bell } = self;
        drop(bell);
        drop(inner);
    }
}

impl Model for RingEndpoint {
    ghost use Rattle.fab_ep.specs.Value.{Whole};
    ghost use Rattle.fab_ring.specs.declared.port.RingPort.{RingPort};

    ghost Value = { Whole RingPort };

    ghost view = { λ e. e.inner };
}

impl RingEndpoint {
    /// Closes the endpoint (fi_close of fi_endpoint(3)). Its port, its address vector and its regions come back, and
    /// all else is given up: buffers of unfinished operations and unread completions are dropped. It takes no memory.
    pub fn close(self) -> Closed<RingPort>
        ensures port { result.port ≡ port_of self }
        ensures av { result.av.indices ≡ self.held.state.av }
        ensures peers { result.av.peers ≡ peers_of (port_of self) }
        ensures regions { result.regions ≡ self.held.state.regions }
    {
        let RingEndpoint { inner, bell } = self;
        drop(bell);
        close(inner)
    }

    /// Wakes the peers that sleep, where the last transmit call posted a frame.
    fn ring_if_pushed(&self) {
        if let Some(bell) = &self.bell {
            if self.inner.pushed() {
                bell.ring();
            }
        }
    }

    /// Wakes the peers that sleep, unless progress posted no frame.
    fn ring_if_moved(&self, moved: &Result<Moved, NoMemory>) {
        if let Some(bell) = &self.bell {
            let posted = match moved {
                Ok(moved) => moved.posted != 0,
                Err(_lacks) => true,
            };
            if posted {
                bell.ring();
            }
        }
    }

    /// Wakes the peers that sleep.
    fn ring(&self) {
        if let Some(bell) = &self.bell {
            bell.ring();
        }
    }
}

impl Sleeps for RingEndpoint {
    fn sleeper(&self) -> Sleeper {
        match &self.bell {
            Some(bell) => bell.sleeper(),
            None => Sleeper::sleepless(),
        }
    }
}

#[tactic(auto, unfolding(crate::specs::Seen::ring_seen))]
impl Sees for RingEndpoint {
    ghost fixed = { true };

    ghost Home = { LaneTable };

    ghost seen = { ring_seen };

    fn known(&self) {
        self.inner.known();
    }
}

#[tactic(auto, unfolding(crate::specs::Seen::ring_seen))]
impl Messages for RingEndpoint {
    fn send(
        &mut self,
        dest: u32,
        buf: Buf,
        imm: Option<u64>,
        ctx: u64,
        flags: Flags,
    ) -> Result<(), Refused> {
        let sent = self.inner.send(dest, buf, imm, ctx, flags);
        self.ring_if_pushed();
        sent
    }

    fn tsend(
        &mut self,
        dest: u32,
        tag: u64,
        buf: Buf,
        imm: Option<u64>,
        ctx: u64,
        flags: Flags,
    ) -> Result<(), Refused> {
        let sent = self.inner.tsend(dest, tag, buf, imm, ctx, flags);
        self.ring_if_pushed();
        sent
    }

    fn inject(&mut self, dest: u32, bytes: &[u8], imm: Option<u64>) -> Result<(), Fault> {
        let sent = self.inner.inject(dest, bytes, imm);
        self.ring_if_pushed();
        sent
    }

    fn tinject(
        &mut self,
        dest: u32,
        tag: u64,
        bytes: &[u8],
        imm: Option<u64>,
    ) -> Result<(), Fault> {
        let sent = self.inner.tinject(dest, tag, bytes, imm);
        self.ring_if_pushed();
        sent
    }
}

#[tactic(auto, unfolding(crate::specs::Seen::ring_seen))]
impl Requests for RingEndpoint {
    fn read(&mut self, dest: u32, key: u64, at: u64, buf: Buf, ctx: u64) -> Result<(), Refused> {
        let sent = self.inner.read(dest, key, at, buf, ctx);
        self.ring_if_pushed();
        sent
    }

    fn write(
        &mut self,
        dest: u32,
        key: u64,
        at: u64,
        buf: Buf,
        imm: Option<u64>,
        ctx: u64,
        flags: Flags,
    ) -> Result<(), Refused> {
        let sent = self.inner.write(dest, key, at, buf, imm, ctx, flags);
        self.ring_if_pushed();
        sent
    }

    fn inject_write(
        &mut self,
        dest: u32,
        key: u64,
        at: u64,
        bytes: &[u8],
        imm: Option<u64>,
    ) -> Result<(), Fault> {
        let sent = self.inner.inject_write(dest, key, at, bytes, imm);
        self.ring_if_pushed();
        sent
    }

    fn atomic(
        &mut self,
        dest: u32,
        key: u64,
        at: u64,
        op: AtomicOp,
        num: Num,
        operand: &[u8],
        ctx: u64,
        flags: Flags,
    ) -> Result<(), Fault> {
        let sent = self
            .inner
            .atomic(dest, key, at, op, num, operand, ctx, flags);
        self.ring_if_pushed();
        sent
    }

    fn fetch_atomic(
        &mut self,
        dest: u32,
        key: u64,
        at: u64,
        op: AtomicOp,
        num: Num,
        operand: &[u8],
        result_: Buf,
        ctx: u64,
    ) -> Result<(), Refused> {
        let sent = self
            .inner
            .fetch_atomic(dest, key, at, op, num, operand, result_, ctx);
        self.ring_if_pushed();
        sent
    }

    fn compare_atomic(
        &mut self,
        dest: u32,
        key: u64,
        at: u64,
        op: AtomicOp,
        num: Num,
        operand: &[u8],
        compare: &[u8],
        result_: Buf,
        ctx: u64,
    ) -> Result<(), Refused> {
        let sent = self
            .inner
            .compare_atomic(dest, key, at, op, num, operand, compare, result_, ctx);
        self.ring_if_pushed();
        sent
    }
}

#[tactic(auto, unfolding(crate::specs::Seen::ring_seen))]
impl Receives for RingEndpoint {
    fn recv(&mut self, source: Option<u32>, buf: Buf, ctx: u64) -> Result<(), Refused> {
        self.inner.recv(source, buf, ctx)
    }

    fn trecv(
        &mut self,
        source: Option<u32>,
        tag: u64,
        ignore: u64,
        buf: Buf,
        ctx: u64,
    ) -> Result<(), Refused> {
        self.inner.trecv(source, tag, ignore, buf, ctx)
    }

    fn cancel(&mut self, ctx: u64) -> Result<(), Fault> {
        self.inner.cancel(ctx)
    }

    fn cancel_first(&mut self) -> Result<(), Fault> {
        self.inner.cancel_first()
    }
}

#[tactic(auto, unfolding(crate::specs::Seen::ring_seen))]
impl Looks for RingEndpoint {
    fn peek(&mut self, source: Option<u32>, tag: u64, ignore: u64, ctx: u64) -> Result<(), Fault> {
        self.inner.peek(source, tag, ignore, ctx)
    }

    fn claim(&mut self, source: Option<u32>, tag: u64, ignore: u64, ctx: u64) -> Result<(), Fault> {
        self.inner.claim(source, tag, ignore, ctx)
    }

    fn discard(
        &mut self,
        source: Option<u32>,
        tag: u64,
        ignore: u64,
        ctx: u64,
    ) -> Result<(), Fault> {
        self.inner.discard(source, tag, ignore, ctx)
    }

    fn take(&mut self, buf: Buf, ctx: u64) -> Result<(), Refused> {
        self.inner.take(buf, ctx)
    }

    fn drop_claimed(&mut self, ctx: u64) -> Result<(), Fault> {
        self.inner.drop_claimed(ctx)
    }
}

#[tactic(auto, unfolding(crate::specs::Seen::ring_seen))]
impl Multis for RingEndpoint {
    fn sharing(&self) {
        self.inner.sharing();
    }

    fn recv_multi(
        &mut self,
        source: Option<u32>,
        buf: Buf,
        least: u32,
        ctx: u64,
    ) -> Result<(), Refused> {
        self.inner.recv_multi(source, buf, least, ctx)
    }

    fn multi_bytes(&self, ctx: u64, at: u32, len: u32) -> Option<&[u8]> {
        self.inner.multi_bytes(ctx, at, len)
    }
}

#[tactic(auto, unfolding(crate::specs::Seen::ring_seen))]
impl Progress for RingEndpoint {
    fn progress(&mut self, budget: u32) -> Result<Moved, NoMemory> {
        let moved = self.inner.progress(budget);
        self.ring_if_moved(&moved);
        moved
    }

    fn cq_is_empty(&self) -> bool {
        self.inner.cq_is_empty()
    }

    fn cq_pop(&mut self) -> Result<Entry, Fault> {
        self.inner.cq_pop()
    }

    fn cq_readerr(&mut self) -> Result<ErrEntry, Fault> {
        self.inner.cq_readerr()
    }

    fn cq_read(&mut self, budget: u32) -> Result<Entry, Fault> {
        let taken = self.inner.cq_read(budget);
        self.ring();
        taken
    }
}

#[tactic(auto, unfolding(crate::specs::Seen::ring_seen))]
impl Counters for RingEndpoint {
    fn cntr_read(&self, class: Class) -> u64 {
        self.inner.cntr_read(class)
    }

    fn cntr_readerr(&self, class: Class) -> u64 {
        self.inner.cntr_readerr(class)
    }

    fn cntr_reached(&self, class: Class, n: u64) -> bool {
        self.inner.cntr_reached(class, n)
    }

    fn cntr_add(&mut self, class: Class, n: u64) {
        self.inner.cntr_add(class, n)
    }
}

#[tactic(auto, unfolding(crate::specs::Seen::ring_seen))]
impl Addresses for RingEndpoint {
    fn insert(&mut self, names: &[Text]) -> Result<InsertReport, NoMemory> {
        self.inner.insert(names)
    }

    fn remove(&mut self, index: u32) -> Result<(), Fault> {
        self.inner.remove(index)
    }

    fn index_of(&self, peer: u32) -> Option<u32> {
        self.inner.index_of(peer)
    }
}

#[tactic(auto, unfolding(crate::specs::Seen::ring_seen))]
impl Regions for RingEndpoint {
    fn reg(&mut self, key: u64, access: Access, buf: Buf) -> Result<(), Refused> {
        self.inner.reg(key, access, buf)
    }

    fn close_region(&mut self, key: u64) -> Result<Buf, Fault> {
        self.inner.close_region(key)
    }

    fn region_bytes(&self, key: u64) -> Option<&[u8]> {
        self.inner.region_bytes(key)
    }

    fn put(&mut self, key: u64, at: u64, src: &[u8]) -> Result<(), Fault> {
        self.inner.put(key, at, src)
    }
}

#[tactic(auto, unfolding(crate::specs::Seen::ring_seen))]
impl Logs for RingEndpoint {
    fn log_pop(&mut self) -> Option<Event> {
        self.inner.log_pop()
    }

    fn log_clear(&mut self) {
        self.inner.log_clear();
    }

    fn awaiting(&self) -> u32 {
        self.inner.awaiting()
    }

    fn deferred(&self) -> u32 {
        self.inner.deferred()
    }

    fn pushed(&self) -> bool {
        self.inner.pushed()
    }
}

#[tactic(auto, unfolding(crate::specs::Seen::ring_seen))]
impl Probes for RingEndpoint {
    fn probe(&self, source: Option<u32>, tag: u64, ignore: u64) -> Result<Option<Probed>, Fault> {
        self.inner.probe(source, tag, ignore)
    }

    fn is_directed(&self) -> bool {
        self.inner.is_directed()
    }
}

#[tactic(auto, unfolding(crate::specs::Seen::ring_seen))]
impl Places for RingEndpoint {
    fn me(&self) -> u32 {
        self.inner.me()
    }

    fn peers(&self) -> u32 {
        self.inner.peers()
    }
}
