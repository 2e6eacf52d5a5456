//! The completion queue.
ghost use Rattle.std.specs.Prelude.{◌≡◌, is_none, ℕ, ◌+◌, ◌-◌, ◌≤◌, length, IfOk, OnOk, OnErr, IfSome, IfNone, IsTrue, Some, None};
ghost use Rattle.fab_model.specs.State.{Completions, writing, fits};
ghost use Rattle.fab_model.specs.Peers.{unread};
ghost use Rattle.fab_cq.specs.Queues.{nothing_written, has_room, IsNext, taking_out, success_of, error_of, buffer_in, given_back};

use fab_base::{Buf, Entry, ErrEntry, Fault, NoMemory, Taken};
use fab_record::caller::Caller;
use fab_record::record::{Begins, Change, Record};
use std::alloc::Global;
use std::collections::VecDeque;
use std::marker::{Model, PhantomData};

/// All completions ever written, as contracts see them. No value of it is made.
struct Past {
    unused: (),
}

impl Model for Past {
    ghost use Rattle.fab_model.specs.State.{Completions};
    ghost use Rattle.fab_cq.specs.Queues.{nothing_written};

    ghost Value = { Completions };

    ghost view = { λ _. nothing_written 0 };
}

/// Nothing is written yet, in a queue of the size that is told.
struct Opens;

impl Begins<u32, Past> for Opens {
    ghost first = { nothing_written };
}

/// One more entry is written, of the call that `C` names.
struct Writes<C> {
    caller: PhantomData<C>,
}

impl<'a, X, C: Caller<X>> Change<(&'a X, &'a Taken), Past> for Writes<C> {
    ghost after = { λ told cq. writing (C.call told.0.now) told.1.now cq };
}

/// One more entry is read.
struct Reads;

impl Change<(), Past> for Reads {
    ghost after = { λ _ cq. taking_out cq };
}

/// The completion queue of an endpoint (fi_cq(3)). Contracts see all entries ever written, how many of these are
/// read, and how many may be unread. The unread ones alone are stored.
#[derive(Drop)]
pub struct Queue {
    past: Record<u32, Past, Opens>,
    unread: VecDeque<Taken>,
    size: u32,
}

impl Model for Queue {
    ghost use Rattle.std.specs.VecDeque.{deque_capacity};
    ghost use Rattle.fab_model.specs.State.{Completions};
    ghost use Rattle.fab_cq.specs.Queues.{IsKept};

    ghost Value = { Completions };

    ghost view = { λ q. q.past };

    ghost invariant = { λ q. IsKept q.unread.items (deque_capacity q.unread) q.size q.past };
}

/// The buffer that an entry gives back, where it is the release of a multi-receive or an error.
fn buffer_in(entry: &Taken) -> Option<&Buf>
    ensures some { IfSome result (λ buf. buffer_in entry.now ≡ Some buf.now) }
    ensures none { IfNone result (buffer_in entry.now ≡ None) }
{
    match entry {
        Taken::Success(Entry::Released { buf, .. }) => Some(buf),
        Taken::Success(_) => None,
        Taken::Failure(error) => error.buf.as_ref(),
    }
}

impl Queue {
    /// An empty queue in which `size` entries may be unread. It reserves the memory for all of them, and answers
    /// `NoMemory` where there is none.
    pub fn new(alloc: Global, size: u32) -> Result<Queue, NoMemory>
        ensures { IfOk result (λ queue. queue ≡ nothing_written size) }
    {
        let past = Record::new(alloc, &size)?;
        let unread = VecDeque::with_capacity(alloc, size as usize)?;
        Ok(Queue { past, unread, size })
    }

    /// What holds of every queue. It costs nothing.
    pub fn known(&self)
        ensures read { self.now.taken_out ≤ length self.now.written }
        ensures unread { length self.now.written - self.now.taken_out ≤ self.now.size }
        ensures fits { IsTrue (fits self.now) }
    {
        let _ = &self.past;
    }

    /// How many entries may be unread.
    pub fn size(&self) -> u32
        ensures { result ≡ self.now.size }
    {
        self.size
    }

    /// How many entries are unread.
    pub fn waiting(&self) -> usize
        ensures { result ≡ length self.now.written - self.now.taken_out }
    {
        self.unread.len()
    }

    /// Lends the bytes of the buffer that an unread entry gives back, before which so many are unread: the release
    /// of a multi-receive (FI_MULTI_RECV of fi_msg(3)), or an error. `None` exactly where there is no such entry, or
    /// it gives none back.
    pub fn buffer_at(&self, place: usize) -> Option<&[u8]>
        ensures some { IfSome result (λ bytes. given_back place self.now ≡ Some bytes.now) }
        ensures none { IfNone result (given_back place self.now ≡ None) }
    {
        let Some(entry) = self.unread.get(place) else {
            return None;
        };
        let Some(buf) = buffer_in(entry) else {
            return None;
        };
        Some(buf.as_slice())
    }

    /// Whether so many more entries may be written, so that the queue fits with them.
    pub fn has_room(&self, entries: u32) -> bool
        ensures room { result ≡ has_room entries self.now }
        ensures fits { (after : Completions) → length after.written ≡ length self.now.written + entries
            → after.taken_out ≡ self.now.taken_out → after.size ≡ self.now.size → fits after ≡ result }
    {
        self.unread.len() + entries as usize <= self.size as usize
    }

    /// Writes an entry behind the others. Its call is the one that `C` names by what `about` tells. Then there is room
    /// for one entry less.
    pub fn write<X, C: Caller<X>>(&mut self, about: &X, entry: Taken)
        requires { IsTrue (has_room 1 self.old) }
        ensures written { self.new ≡ writing (C.call about.now) entry self.old }
        ensures room { (n : ℕ) → has_room n self.new ≡ has_room (n + 1) self.old }
    {
        let Queue { past, unread, .. } = self;
        past.note::<(&X, &Taken), Writes<C>>(&(about, &entry));
        unread.push_back_reserved(entry);
    }

    /// Lends the oldest unread entry, which stays, and `None` exactly where there is none.
    pub fn first(&self) -> Option<&Taken>
        ensures some { IfSome result (λ entry. IsNext entry.now self.now) }
        ensures none { IfNone result (unread self.now ≡ None) }
    {
        self.unread.front()
    }

    /// Whether no entry is unread.
    pub fn is_empty(&self) -> bool
        ensures { result ≡ is_none (unread self.now) }
    {
        self.first().is_none()
    }

    /// Takes the oldest unread entry out (fi_cq_read), and `None` exactly where there is none; then nothing changes.
    pub fn pop(&mut self) -> Option<Taken>
        ensures entry { IfSome result (λ entry. IsNext entry self.old) }
        ensures read { IfSome result (λ _. self.new ≡ taking_out self.old) }
        ensures none { IfNone result (unread self.old ≡ None) }
        ensures unchanged { IfNone result (self.new ≡ self.old) }
    {
        let Queue { past, unread, .. } = self;
        let entry = unread.pop_front()?;
        past.note::<(), Reads>(&());
        Some(entry)
    }

    /// Takes the oldest unread entry out where it is a success (fi_cq_read). It answers `NoEntry` exactly where there
    /// is none, and `Avail` exactly where it is an error; then nothing changes.
    pub fn read(&mut self) -> Result<Entry, Fault>
        ensures answer { result ≡ success_of (unread self.old) }
        ensures ok { OnOk result (self.new ≡ taking_out self.old) }
        ensures err { OnErr result (self.new ≡ self.old) }
    {
        match self.first() {
            None => return Err(Fault::NoEntry),
            Some(Taken::Failure(_)) => return Err(Fault::Avail),
            Some(Taken::Success(_)) => {}
        }
        match self.pop() {
            Some(Taken::Success(entry)) => Ok(entry),
            _ => unreachable!(),
        }
    }

    /// Takes the oldest unread entry out where it is an error (fi_cq_readerr). It answers `NoEntry` exactly where there
    /// is none or it is a success; then nothing changes.
    pub fn read_err(&mut self) -> Result<ErrEntry, Fault>
        ensures answer { result ≡ error_of (unread self.old) }
        ensures ok { OnOk result (self.new ≡ taking_out self.old) }
        ensures err { OnErr result (self.new ≡ self.old) }
    {
        match self.first() {
            None | Some(Taken::Success(_)) => return Err(Fault::NoEntry),
            Some(Taken::Failure(_)) => {}
        }
        match self.pop() {
            Some(Taken::Failure(entry)) => Ok(entry),
            _ => unreachable!(),
        }
    }
}
