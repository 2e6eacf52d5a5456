//! A core is the machine under an endpoint.
ghost use Rattle.fab_core.specs.Parts.{held_of};

use crate::parts::Core;
use fab_base::{Buf, Entry, ErrEntry, Fault, FrameHead, NoMemory, Refused};
use fab_face::machine::{Ask, Machine, Message, Next};
use fab_match::Matcher;
use fab_settling::items::is_last;
use std::snapshot::Snapshot;

impl<M: Matcher> Machine for Core<M> {
    ghost held = { held_of };

    fn known(&self) {
        self.rx.known();
        self.tx.known();
        self.cq.known();
    }

    fn next(&self, dest: u32) -> Option<Next<'_>> {
        self.tx.known();
        let next = self.tx.next(dest)?;
        Some(Next {
            head: next.head,
            bytes: next.bytes,
        })
    }

    fn place(&self, dest: u32) -> u32 {
        self.tx.known();
        self.tx.place(dest)
    }

    fn sent_fits(&self, dest: u32) -> bool {
        self.tx.known();
        self.cq.known();
        !self.tx.writes(dest) || self.cq.has_room(1)
    }

    fn go_on(&mut self, dest: u32, place: u32) {
        self.tx.known();
        self.tx.go_on(dest, place);
    }

    fn finish(&mut self, dest: u32) {
        self.tx.known();
        self.cq.known();
        self.transmitted(dest);
    }

    fn take(&mut self, source: u32, head: &FrameHead, bytes: &[u8]) -> Result<bool, NoMemory> {
        self.rx.known();
        self.tx.known();
        if self.waits(head) {
            return Ok(false);
        }
        if is_last(head) {
            self.take_last(source, head, bytes)
        } else {
            self.take_more(source, head, bytes)
        }
    }

    fn is_draw_due(&self) -> bool {
        self.rx.is_draw_due()
    }

    fn draw(&mut self) -> bool {
        self.rx.known();
        self.cq.known();
        if !self.cq.has_room(self.rx.draw_entries()) {
            return false;
        }
        self.make_draw();
        true
    }

    fn send_fault(&self, message: &Message, bytes: &[u8]) -> Option<Fault> {
        self.message_fault(message, bytes)
    }

    fn is_full(&self) -> bool {
        self.tx.is_full()
    }

    fn most_tx(&self) -> u32 {
        self.most_tx
    }

    fn peer_at(&self, index: u32) -> Option<u32> {
        self.av.lookup(index).ok()
    }

    fn send(&mut self, message: &Message, buf: Buf) {
        self.av.known();
        self.tx.known();
        let Ok(dest) = self.av.lookup(message.dest) else {
            unreachable!()
        };
        self.accept(dest, message, buf);
    }

    fn inject(&mut self, message: &Message, bytes: &[u8]) {
        self.av.known();
        self.tx.known();
        let Ok(dest) = self.av.lookup(message.dest) else {
            unreachable!()
        };
        self.accept_copy(dest, message, bytes);
    }

    fn post_fault(&self, ask: &Ask, buf: &Buf) -> Option<Fault> {
        self.ask_fault(ask, buf)
    }

    fn post(&mut self, ask: &Ask, buf: Buf) -> Result<(), Refused> {
        self.rx.known();
        self.cq.known();
        self.ask(ask, buf)
    }

    fn may_cancel(&self, ctx: Option<u64>) -> bool {
        self.rx.known();
        self.cq.known();
        self.rx.may_cancel(ctx)
    }

    fn cancel(&mut self, ctx: Option<u64>) -> Result<(), Fault> {
        self.rx.known();
        self.cq.known();
        self.leave(ctx)
    }

    fn is_cq_empty(&self) -> bool {
        self.cq.is_empty()
    }

    fn pop(&mut self) -> Result<Entry, Fault> {
        let before = Snapshot::of(&self.cq);
        match self.cq.read() {
            Ok(entry) => {
                self.multis.read(&before);
                Ok(entry)
            }
            Err(why) => Err(why),
        }
    }

    fn pop_error(&mut self) -> Result<ErrEntry, Fault> {
        let before = Snapshot::of(&self.cq);
        match self.cq.read_err() {
            Ok(entry) => {
                self.multis.read(&before);
                Ok(entry)
            }
            Err(why) => Err(why),
        }
    }

    fn awaiting(&self) -> u32 {
        self.tx.awaiting()
    }

    fn deferred(&self) -> u32 {
        self.tx.deferred()
    }
}
