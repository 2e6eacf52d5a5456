//! Reads, writes and atomics of a peer are judged and accepted (fi_rma(3), fi_atomic(3)).
ghost use Rattle.std.specs.Prelude.{◌≡◌, ◌<◌, ◌≤◌, ◌^◌, ◌+◌, [], Some, None, length};
ghost use Rattle.fab_base.specs.declared.limits.TheConstants.{INJECT_BYTES};
ghost use Rattle.fab_link.specs.Frames.{IsSound};
ghost use Rattle.fab_model.specs.State.{in_use};
ghost use Rattle.fab_model.specs.Sending.{head_of};
ghost use Rattle.fab_face.specs.Requesting.{order_asked};
ghost use Rattle.fab_core.specs.Parts.{state_of};
ghost use Rattle.fab_core.specs.Asking.{accepted_as};
ghost use Rattle.fab_core.specs.Doing.{lasting_transmit};

use crate::parts::Core;
use fab_base::{Buf, Fault, INJECT_BYTES, Level};
use fab_face::requesting::{Request, Requesting};
use fab_match::Matcher;
use fab_settling::calls::{CallRecord, ThisCall, call};
use fab_settling::granted::may_ask;
use fab_settling::requests::{asks_silently, is_too_long, is_well_formed, request_head};
use std::snapshot::Snapshot;

impl<M: Matcher> Core<M> {
    /// Why a request is refused for a reason that does not pass.
    fn asking_fault(&self, request: &Request, bytes: &[u8], compared: &[u8]) -> Option<Fault>
        ensures { result ≡ lasting_transmit (state_of self.now) (order_asked request.now bytes.now compared.now None) }
    {
        if !may_ask(&self.caps, request.asked) {
            return Some(Fault::NotSupported);
        }
        if is_too_long(self.most_message, request, bytes, compared) {
            return Some(Fault::MsgSize);
        }
        if self.av.lookup(request.dest).is_err()
            || !self.tx.may_count()
            || !is_well_formed(request, bytes, compared)
        {
            return Some(Fault::Invalid);
        }
        None
    }

    /// Accepts a request for a peer, with its buffer.
    fn ask_owned(&mut self, dest: u32, request: &Request, buf: Buf)
        requires peer { dest < length self.old.tx.tx.sent }
        requires room { in_use self.old.tx.tx < self.old.tx.most }
        requires counts { self.old.tx.tx.ops < 2 ^ 62 }
        requires count { request.now.count < 2 ^ 32 }
        requires total { length buf < 2 ^ 32 }
        requires sound { IsSound (head_of self.old.tx.tx.ops (order_asked request.now buf [] (Some buf))) }
        ensures { self.new ≡ accepted_as dest (order_asked request.now buf [] (Some buf)) self.old }
    {
        let about = Snapshot::of(&self.calls);
        let head = request_head(request, self.tx.ops(), buf.as_slice(), &[]);
        let silent = asks_silently(request, self.selective);
        let level = Level::Delivery;
        let ctx = request.ctx;
        self.tx
            .accept_owned::<Snapshot<CallRecord>, ThisCall>(
                &about,
                dest,
                head,
                level,
                ctx,
                buf,
                silent,
                request.fence,
            );
        call(&mut self.calls);
    }

    /// Accepts a request for a peer, whose bytes are copied.
    fn ask_copied(
        &mut self,
        dest: u32,
        request: &Request,
        bytes: &[u8],
        compared: &[u8],
        buf: Option<Buf>,
    )
        requires peer { dest < length self.old.tx.tx.sent }
        requires room { in_use self.old.tx.tx < self.old.tx.most }
        requires counts { self.old.tx.tx.ops < 2 ^ 62 }
        requires count { request.now.count < 2 ^ 32 }
        requires few { length bytes.now + length compared.now ≤ INJECT_BYTES }
        requires sound { IsSound (head_of self.old.tx.tx.ops (order_asked request.now bytes.now compared.now buf)) }
        ensures { self.new ≡ accepted_as dest (order_asked request.now bytes.now compared.now buf) self.old }
    {
        let about = Snapshot::of(&self.calls);
        let head = request_head(request, self.tx.ops(), bytes, compared);
        let silent = asks_silently(request, self.selective);
        let level = Level::Delivery;
        let ctx = request.ctx;
        self.tx.accept_copied::<Snapshot<CallRecord>, ThisCall>(
            &about,
            dest,
            head,
            level,
            ctx,
            bytes,
            compared,
            buf,
            silent,
            request.fence,
        );
        call(&mut self.calls);
    }
}

impl<M: Matcher> Requesting for Core<M> {
    fn request_fault(&self, request: &Request, bytes: &[u8], compared: &[u8]) -> Option<Fault> {
        self.asking_fault(request, bytes, compared)
    }

    fn request_owned(&mut self, request: &Request, buf: Buf) {
        self.av.known();
        self.tx.known();
        let Ok(dest) = self.av.lookup(request.dest) else {
            unreachable!()
        };
        self.ask_owned(dest, request, buf);
    }

    fn request_copied(
        &mut self,
        request: &Request,
        bytes: &[u8],
        compared: &[u8],
        buf: Option<Buf>,
    ) {
        self.av.known();
        self.tx.known();
        let Ok(dest) = self.av.lookup(request.dest) else {
            unreachable!()
        };
        self.ask_copied(dest, request, bytes, compared, buf);
    }
}
