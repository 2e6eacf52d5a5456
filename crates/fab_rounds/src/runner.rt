//! A peer with what its last turn told.
ghost use Rattle.std.specs.Prelude.{◌≡◌, ◌<◌, ◌≤◌, ◌+◌, ◌^◌, ℕ, [], ◌∷◌, ◌++◌, true, false, length, Some, IfOk, OnErr};
ghost use Rattle.fab_ep.specs.Value.{seen};
ghost use Rattle.fab_model.specs.Peers.{is_finished};
ghost use Rattle.fab_peer.specs.Laps.{InLaps};
ghost use Rattle.fab_peer.specs.Left.{LeftBy};
ghost use Rattle.fab_peer.specs.Turns.{told, living_of, actor_of, IsCounted, IsStill};
ghost use Rattle.fab_meeting.specs.Accounts.{answer_at};
ghost use Rattle.fab_rounds.specs.Rounds.{TurnedAs, between, size};
ghost use Rattle.fab_rounds.specs.Words.{told_by};
ghost use Rattle.fab_rounds.specs.Staying.{account_in, IsSeated};

use fab_base::NoMemory;
use fab_ep::endpoint::Endpoint;
use fab_face::calls::Sees;
use fab_link::Port;
use fab_meeting::{Meeting, MeetingSeat};
use fab_peer::calls::Machinery;
use fab_peer::peer::Peer;
use std::sync::Wait;

/// A peer with what its last turn told: whether it moved anything, or that memory ran out.
#[derive(Drop)]
pub struct Runner<P: Port, C: Machinery> {
    pub(crate) peer: Peer<Endpoint<P, C>>,
    pub(crate) moved: bool,
    pub(crate) failed: bool,
    /// While threads stay: its seat where all peers meet.
    pub(crate) seat: Option<MeetingSeat>,
    ghost quiet: { failed ≡ false → peer.endpoint.log ≡ [] },
    ghost counted: { failed ≡ false → IsCounted (living_of (told (seen P.Port) peer)) },
    ghost kept: { failed ≡ true → moved ≡ false },
}

impl<P: Port, C: Machinery> Runner<P, C> {
    /// A peer that took no turn yet.
    pub fn new(peer: Peer<Endpoint<P, C>>) -> Runner<P, C>
        requires log { peer.endpoint.log ≡ [] }
        requires counted { IsCounted (living_of (told (seen P.Port) peer)) }
        ensures peer { result.peer ≡ peer }
        ensures moved { result.moved ≡ false }
        ensures failed { result.failed ≡ false }
    {
        Runner {
            peer,
            moved: false,
            failed: false,
            seat: None,
        }
    }

    /// The peer.
    pub fn peer(&self) -> &Peer<Endpoint<P, C>>
        ensures { result.now ≡ self.now.peer }
    {
        &self.peer
    }

    /// Gives the peer back. Where no turn of it lacked memory, its endpoint's log is empty and its multi-receives are
    /// counted.
    pub fn into_peer(self) -> Peer<Endpoint<P, C>>
        ensures peer { result ≡ self.peer }
        ensures log { self.failed ≡ false → result.endpoint.log ≡ [] }
        ensures counted { self.failed ≡ false → IsCounted (living_of (told (seen P.Port) result)) }
    {
        let Runner {
            peer,
            moved: _moved,
            failed: _failed,
            seat: _seat,
        } = self;
        peer
    }

    /// Whether its last turn moved anything.
    pub fn moved(&self) -> bool
        ensures { result ≡ self.now.moved }
    {
        self.moved
    }

    /// Whether a turn of it met want of memory. Then every later one does, and moves nothing.
    pub fn failed(&self) -> bool
        ensures { result ≡ self.now.failed }
    {
        self.failed
    }

    /// Whether all its lines are done.
    pub fn finished(&self) -> bool
        ensures { result ≡ is_finished (actor_of (told (seen P.Port) self.now.peer)) }
    {
        self.peer.finished()
    }

    /// One turn, with so many looks as `Peer::quantum` has. Its answer is kept: whether it moved anything, or that memory ran
    /// out. Want of memory leaves the schedule as it was, and of the rest what `Peer::quantum` says; from then on the peer stays as
    /// it is.
    pub fn quantum(&mut self, looks: u32) -> Result<bool, NoMemory>
        ensures turned { self.new.failed ≡ false → (self.old.failed ≡ false) × TurnedAs (told (seen P.Port) self.old.peer) (told (seen P.Port) self.new.peer) self.new.moved }
        ensures still { self.new.failed ≡ false → self.new.moved ≡ false → IsStill (told (seen P.Port) self.old.peer) (told (seen P.Port) self.new.peer) }
        ensures grown { self.new.failed ≡ false → size (told (seen P.Port) self.old.peer) ≤ size (told (seen P.Port) self.new.peer) }
        ensures risen { self.new.moved ≡ true → size (told (seen P.Port) self.old.peer) < size (told (seen P.Port) self.new.peer) }
        ensures ok { IfOk result (λ moved. (self.new.moved ≡ moved) × (self.new.failed ≡ false)) }
        ensures err { OnErr result ((self.new.moved ≡ false) × (self.new.failed ≡ true)) }
        ensures stays { self.new.failed ≡ true → (self.new.moved ≡ false) × ((told (seen P.Port) self.new.peer).schedule ≡ (told (seen P.Port) self.old.peer).schedule) }
        ensures left { self.old.failed ≡ false → self.new.failed ≡ true → LeftBy (told (seen P.Port) self.old.peer) (told (seen P.Port) self.new.peer) }
        ensures laps { self.new.failed ≡ false → InLaps P.FIXED looks (told (seen P.Port) self.old.peer) (told (seen P.Port) self.new.peer) }
        ensures failed { self.old.failed ≡ true → self.new ≡ self.old }
        ensures seat { self.new.seat ≡ self.old.seat }
    {
        if self.failed {
            return Err(NoMemory);
        }
        self.peer.endpoint.known();
        match self.peer.quantum(looks) {
            Ok(moved) => {
                self.peer.endpoint.known();
                self.moved = moved;
                Ok(moved)
            }
            Err(error) => {
                self.moved = false;
                self.failed = true;
                Err(error)
            }
        }
    }

    /// Takes a seat where all peers meet.
    pub(crate) fn sit(&mut self, seat: MeetingSeat)
        ensures seat { self.new.seat ≡ Some seat }
        ensures same { (self.new.peer ≡ self.old.peer) × (self.new.moved ≡ self.old.moved) × (self.new.failed ≡ self.old.failed) }
    {
        self.seat = Some(seat);
    }

    /// Gives its seat back.
    pub(crate) fn stand(&mut self) -> Option<MeetingSeat>
        ensures seat { result ≡ self.old.seat }
        ensures same { (self.new.peer ≡ self.old.peer) × (self.new.moved ≡ self.old.moved) × (self.new.failed ≡ self.old.failed) }
    {
        self.seat.take()
    }

    /// What it tells the others of its last turn.
    fn word(&self) -> u32
        ensures { result ≡ told_by (between (told (seen P.Port) self.now.peer) self.now.moved self.now.failed) }
    {
        let moved = if self.moved { 1 } else { 0 };
        let left = if self.peer.finished() { 0 } else { 2 };
        let failed = if self.failed { 4 } else { 0 };
        moved + left + failed
    }

    /// Tells the others of its last turn, waits until all have told of theirs, and answers what all told.
    pub(crate) fn meet<R: Wait>(&mut self, rt: &R, meeting: &Meeting) -> u32
        requires seated { IsSeated meeting.now self.old.seat }
        requires few { length (account_in self.old.seat).said + 1 < 2 ^ 32 }
        ensures seated { IsSeated meeting.now self.new.seat }
        ensures place { (account_in self.new.seat).place ≡ (account_in self.old.seat).place }
        ensures said { (account_in self.new.seat).said ≡ (account_in self.old.seat).said ++ told_by (between (told (seen P.Port) self.old.peer) self.old.moved self.old.failed) ∷ [] }
        ensures answered { answer_at (account_in self.new.seat) (length (account_in self.old.seat).said) ≡ result }
        ensures kept { (n : ℕ) → n < length (account_in self.old.seat).said → answer_at (account_in self.new.seat) n ≡ answer_at (account_in self.old.seat) n }
        ensures same { (self.new.peer ≡ self.old.peer) × (self.new.moved ≡ self.old.moved) × (self.new.failed ≡ self.old.failed) }
    {
        let word = self.word();
        match &mut self.seat {
            Some(seat) => meeting.meet(rt, seat, word),
            None => unreachable!(),
        }
    }
}
