//! The multi-receives whose end was not read (FI_MULTI_RECV of fi_msg(3)): contracts see their calls, and where
//! their buffers are is stored.
ghost use Rattle.std.specs.Prelude.{◌≡◌, ◌<◌, ◌==◌, ◌++◌, ◌∷◌, [], IfOk, find, length};
ghost use Rattle.std.specs.Option.{option_map};
ghost use Rattle.fab_model.specs.Peers.{unread};
ghost use Rattle.fab_settling.specs.declared.places.Member.{Member as OneMember};
ghost use Rattle.fab_settling.specs.Members.{enlisted, let_any_go, let_go, list_read, nobody, read_by};

use crate::calls::CallRecord;
use crate::places::{Member, Place, let_go, read};
use fab_base::NoMemory;
use fab_cq::Queue;
use fab_record::record::{Begins, Change, Record};
use std::alloc::Global;
use std::marker::Model;
use std::snapshot::Snapshot;

/// The context and the call of each multi-receive whose release or cancel was not read, oldest first. No value
/// of it is made.
pub struct MultiList {
    unused: (),
}

impl Model for MultiList {
    ghost use Rattle.std.specs.Prelude.{ℕ, List, []};

    ghost Value = { List (ℕ × ℕ) };

    ghost view = { λ _. [] };
}

/// None was posted.
pub struct NoMulti;

impl Begins<(), MultiList> for NoMulti {
    ghost first = { λ _. [] };
}

/// One more is posted, by the call that is being made, under this context.
struct Posts;

impl Change<(Snapshot<CallRecord>, u64), MultiList> for Posts {
    ghost after = { λ x multis. multis ++ (x.1, x.0.value) ∷ [] };
}

/// The first unread entry of this queue is read.
struct Reads;

impl Change<Snapshot<Queue>, MultiList> for Reads {
    ghost after = { λ x multis. list_read (unread x.value) multis };
}

/// The multi-receives whose end was not read, oldest first. Memory for their places is taken once.
#[derive(Drop)]
pub struct Multis {
    past: Record<(), MultiList, NoMulti>,
    places: Vec<Member>,
}

impl Model for Multis {
    ghost use Rattle.std.specs.Prelude.{vec_capacity};
    ghost use Rattle.fab_settling.specs.Members.{Members};

    ghost Value = { Members };

    ghost view = { λ m. record { list = m.past; places = m.places.items; room = vec_capacity m.places } };
}

impl Multis {
    /// None, with memory for so many.
    pub fn new(alloc: Global, most: usize) -> Result<Multis, NoMemory>
        ensures { IfOk result (λ multis. multis ≡ nobody most) }
    {
        let past = Record::new(alloc, &())?;
        let places = Vec::with_capacity(alloc, most)?;
        Ok(Multis { past, places })
    }

    /// A multi-receive is posted under the id by the call that is being made, after so many.
    pub fn enlist(&mut self, calls: &CallRecord, id: u32, ctx: u64)
        requires room { length self.old.places < self.old.room }
        ensures { self.new ≡ enlisted id ctx calls.now self.old }
    {
        let Multis { past, places } = self;
        let about = (Snapshot::of(calls), ctx);
        past.note::<(Snapshot<CallRecord>, u64), Posts>(&about);
        places.push_reserved(Member {
            ctx,
            place: Place::Open(id),
        });
    }

    /// The buffer of the one under the id comes back with an entry before which so many are unread.
    pub fn let_go(&mut self, id: u32, before: usize)
        ensures { self.new ≡ let_go id before self.old }
    {
        let_go(&mut self.places, id, before);
    }

    /// The same where there is an id, else nothing.
    pub fn let_any_go(&mut self, id: Option<u32>, before: usize)
        ensures { self.new ≡ let_any_go id before self.old }
    {
        if let Some(id) = id {
            self.let_go(id, before);
        }
    }

    /// The first unread entry of the queue, as it was, is read.
    pub fn read(&mut self, before: &Snapshot<Queue>)
        ensures { self.new ≡ read_by (unread before.now.value) self.old }
    {
        let Multis { past, places } = self;
        past.note::<Snapshot<Queue>, Reads>(before);
        read(places);
    }

    /// Where the buffer of the oldest one of the context is.
    pub fn place_of(&self, ctx: u64) -> Option<Place>
        ensures { result ≡ option_map (λ (m : OneMember). m.place) (find (λ (m : OneMember). m.ctx == ctx) self.now.places) }
    {
        let member = self.places.iter().find(|member| member.ctx == ctx)?;
        Some(member.place)
    }
}
