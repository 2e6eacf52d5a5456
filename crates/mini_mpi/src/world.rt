//! A rank, and its messages to and from single ranks.
ghost use Rattle.std.specs.Prelude.{◌≡◌, ◌<◌, true, [], None, Some, IfErr, IfOk, IfSome, OnErr, OnOk, vec_len, vec_capacity};
ghost use Rattle.fabric.specs.Probes.{probed};
ghost use Rattle.fabric.specs.Progresses.{is_flushed};
ghost use Rattle.fabric.specs.Words.{Match, Polled, Transmit};
ghost use Rattle.mini_mpi_parts.specs.Tags.{wanted};
ghost use Rattle.mini_mpi.specs.Asleep.{waiting_of};
ghost use Rattle.mini_mpi.specs.Collecting.{HearsOf, member_of};
ghost use Rattle.mini_mpi.specs.Errors.{RefusesWrong};
ghost use Rattle.mini_mpi.specs.Going.{Comes, Goes, LacksMemory, PostsAll, rank_of};
ghost use Rattle.mini_mpi.specs.Posting.{BeginsReceive, BeginsSend};
ghost use Rattle.mini_mpi.specs.Requests.{EndsAs, at_of, told};
ghost use Rattle.mini_mpi.specs.Waiting.{AwaitsEnd, EndAll, Joins, SendsAndWaits, fresh_of, ids_of};

use crate::asleep::{Waiting, next_asleep};
use crate::begun::{Begun, Receiving, Sending};
use crate::ended::{Completed, Request, Status, told};
use crate::errors::{Error, Failed, error_of};
use crate::moving::{next, progress};
use crate::posting::{begin_receive, begin_send, post_receives};
use fabric::{
    Buf, Calls, Collective, EndpointOver, Group, Level, Polled, Sleeper, Sleeps, with_sleeper,
};
use mini_mpi_parts::{take_ended, wanted, wrong_with};
use std::alloc::Global;
use std::sync::Wait;

/// How often other ranks may run before other things are done, while no completion comes.
const PATIENCE: u32 = 16;

/// A rank with its endpoint, which it moves whenever a call is made.
#[derive(Drop)]
pub struct World<E: Calls + Drop> {
    pub(crate) alloc: Global,
    pub(crate) endpoint: EndpointOver<E>,
    pub(crate) group: Group,
    pub(crate) begun: Begun,
    /// Who sleeps for this rank. It spins where nobody does.
    pub(crate) sleeper: Option<Sleeper>,
}

impl<E: Calls + Sleeps + Drop> World<E> {
    /// The rank of an endpoint, as of `new`, which waits so. The endpoints of ranks that sleep are opened with sleeping
    /// (`Hints::sleeping`). Over others a rank that is to sleep lets other threads run in its place.
    pub fn with_waiting(alloc: Global, endpoint: EndpointOver<E>, waiting: Waiting) -> World<E>
        ensures rank { result.group.rank ≡ (E.seen endpoint).lanes.number }
        ensures size { result.group.peers ≡ (E.seen endpoint).lanes.peers }
        ensures waits { waiting_of result.sleeper ≡ waiting }
    {
        match waiting {
            Waiting::Spin => World::new(alloc, endpoint),
            Waiting::Sleep => {
                let (endpoint, sleeper) = with_sleeper(endpoint);
                World::of(alloc, endpoint, Some(sleeper))
            }
        }
    }
}

impl<E: Calls + Drop> World<E> {
    /// The rank of an endpoint, for which somebody sleeps or nobody.
    fn of(alloc: Global, endpoint: EndpointOver<E>, sleeper: Option<Sleeper>) -> World<E>
        ensures rank { result.group.rank ≡ (E.seen endpoint).lanes.number }
        ensures size { result.group.peers ≡ (E.seen endpoint).lanes.peers }
        ensures waits { result.sleeper ≡ sleeper }
    {
        let group = Group::of(alloc, &endpoint);
        World {
            alloc,
            endpoint,
            group,
            begun: Begun::new(alloc),
            sleeper,
        }
    }

    /// The rank of an endpoint (MPI_Init): its own number among the peers of its domain. The endpoint is opened for directed
    /// receives, as whoever asks for no capability has it; else a named source counts for nothing. The rank spins where it waits.
    pub fn new(alloc: Global, endpoint: EndpointOver<E>) -> World<E>
        ensures rank { result.group.rank ≡ (E.seen endpoint).lanes.number }
        ensures size { result.group.peers ≡ (E.seen endpoint).lanes.peers }
        ensures waits { waiting_of result.sleeper ≡ Waiting.Spin }
    {
        World::of(alloc, endpoint, None)
    }

    /// This rank (MPI_Comm_rank).
    pub fn rank(&self) -> u32
        ensures { result ≡ self.now.group.rank }
    {
        self.group.rank()
    }

    /// How many ranks there are (MPI_Comm_size).
    pub fn size(&self) -> u32
        ensures { result ≡ self.now.group.peers }
    {
        self.group.peers()
    }

    /// Posts what waits, and reads the next completion: asleep, or in at most so many turns with other ranks and one try more. There is
    /// room to keep its end.
    fn next<R: Wait>(&mut self, rt: &R, turns: u32) -> Result<Polled, Error>
        ensures room { OnOk result (vec_len self.new.begun.ended < vec_capacity self.new.begun.ended) }
        ensures ok { IfOk result (λ polled. Comes E.fixed polled (rank_of (E.seen self.old.endpoint) self.old.begun) (rank_of (E.seen self.new.endpoint) self.new.begun)) }
        ensures err { IfErr result (λ why. (why ≡ Error.NoMem) × Goes E.fixed (rank_of (E.seen self.old.endpoint) self.old.begun) (rank_of (E.seen self.new.endpoint) self.new.begun)) }
        ensures lacks { OnErr result (LacksMemory E.fixed (rank_of (E.seen self.old.endpoint) self.old.begun) (rank_of (E.seen self.new.endpoint) self.new.begun) self.new.begun) }
        ensures ranks { self.new.group ≡ self.old.group }
    {
        match &mut self.sleeper {
            Some(sleeper) => next_asleep(rt, &mut self.endpoint, &mut self.begun, sleeper),
            None => next(&mut self.endpoint, &mut self.begun, turns),
        }
    }

    /// Makes progress, and keeps the end of a request for the wait for it.
    fn progress<R: Wait>(&mut self, rt: &R, turns: u32) -> Result<(), Error>
        ensures goes { Goes E.fixed (rank_of (E.seen self.old.endpoint) self.old.begun) (rank_of (E.seen self.new.endpoint) self.new.begun) }
        ensures err { IfErr result (λ why. why ≡ Error.NoMem) }
        ensures lacks { OnErr result (LacksMemory E.fixed (rank_of (E.seen self.old.endpoint) self.old.begun) (rank_of (E.seen self.new.endpoint) self.new.begun) self.new.begun) }
        ensures ranks { self.new.group ≡ self.old.group }
    {
        let polled = self.next(rt, turns)?;
        self.begun.keep(polled);
        Ok(())
    }

    /// Makes progress while a collective is under way, which takes its own completions.
    pub(crate) fn progress_for<R: Wait>(
        &mut self,
        rt: &R,
        collective: &mut Collective,
    ) -> Result<(), Error>
        ensures heard { OnOk result ((polled : Polled) × HearsOf E.fixed polled (member_of (E.seen self.old.endpoint) self.old.begun collective.old) (member_of (E.seen self.new.endpoint) self.new.begun collective.new)) }
        ensures ranks { self.new.group ≡ self.old.group }
    {
        let polled = self.next(rt, PATIENCE)?;
        match collective.offer(polled) {
            Some(other) => self.begun.keep(other),
            None => {}
        }
        Ok(())
    }

    /// Begins a send that is complete at this level.
    fn send_at(&mut self, dest: u32, tag: u32, buf: Buf, level: Level) -> Result<Request, Failed>
        ensures wrong { RefusesWrong self.old.group.peers (Some dest) (Some tag) buf result }
        ensures ok { IfOk result (λ request. BeginsSend E.fixed (record { dest = dest; tag = tag; buf = buf; id = request.id; level = level }) self.old.begun.sends.items self.new.begun.sends.items (E.seen self.old.endpoint) (E.seen self.new.endpoint)) }
        ensures back { IfErr result (λ failed. failed.buf ≡ Some buf) }
        ensures err { OnErr result (self.new.begun.sends.items ≡ self.old.begun.sends.items) }
        ensures others { (self.new.begun.receives ≡ self.old.begun.receives) × (self.new.begun.ended ≡ self.old.begun.ended) }
        ensures fresh { IfOk result (λ request. request.id ≡ fresh_of self.old.begun) }
        ensures ranks { self.new.group ≡ self.old.group }
    {
        if let Some(wrong) = wrong_with(self.size(), Some(dest), Some(tag)) {
            return Err(Failed::with(error_of(wrong), buf));
        }
        let id = self.begun.fresh();
        let send = Sending {
            dest,
            tag,
            buf,
            id,
            level,
        };
        begin_send(&mut self.endpoint, &mut self.begun, send)?;
        Ok(Request { id })
    }

    /// Begins a send (MPI_Isend). It is complete once the message is on its way, whether or not a receive takes it.
    ///
    /// It returns at once, whatever other ranks do. A send that the endpoint refuses for now waits behind all that were begun before
    /// it, and goes out while calls that wait make progress. `Rank` and `Tag` hand the buffer back, and so do `NoMem` and `Count`, which
    /// the wait tells of a send that waited.
    pub fn isend(&mut self, dest: u32, tag: u32, buf: Buf) -> Result<Request, Failed>
        ensures wrong { RefusesWrong self.old.group.peers (Some dest) (Some tag) buf result }
        ensures ok { IfOk result (λ request. BeginsSend E.fixed (record { dest = dest; tag = tag; buf = buf; id = request.id; level = Transmit }) self.old.begun.sends.items self.new.begun.sends.items (E.seen self.old.endpoint) (E.seen self.new.endpoint)) }
        ensures back { IfErr result (λ failed. failed.buf ≡ Some buf) }
        ensures err { OnErr result (self.new.begun.sends.items ≡ self.old.begun.sends.items) }
        ensures others { (self.new.begun.receives ≡ self.old.begun.receives) × (self.new.begun.ended ≡ self.old.begun.ended) }
        ensures fresh { IfOk result (λ request. request.id ≡ fresh_of self.old.begun) }
        ensures ranks { self.new.group ≡ self.old.group }
    {
        self.send_at(dest, tag, buf, Level::Transmit)
    }

    /// Sends, and waits until a receive took the message (MPI_Ssend). The buffer is given back.
    pub fn ssend<R: Wait>(&mut self, rt: &R, dest: u32, tag: u32, buf: Buf) -> Result<Buf, Failed>
        ensures wrong { RefusesWrong self.old.group.peers (Some dest) (Some tag) buf result }
        ensures ok { IfOk result (λ back. SendsAndWaits E.fixed (record { dest = dest; tag = tag; buf = buf; id = fresh_of self.old.begun; level = Match }) (rank_of (E.seen self.old.endpoint) self.old.begun) (rank_of (E.seen self.new.endpoint) self.new.begun) back) }
        ensures ranks { self.new.group ≡ self.old.group }
    {
        let request = self.send_at(dest, tag, buf, Level::Match)?;
        let completed = self.wait(rt, request)?;
        Ok(completed.buf)
    }

    /// Begins a receive (MPI_Irecv), of messages of any source where it is `ANY_SOURCE`, and of any tag where it is
    /// `ANY_TAG`. Receives take messages in the order in which they were begun, and messages of one source in the order in
    /// which they were sent.
    ///
    /// It returns at once, whatever other ranks do. A receive that the endpoint refuses for now waits behind all that were begun before
    /// it, and is posted while calls that wait make progress. `Rank` and `Tag` hand the buffer back, and so do `NoMem` and `Count`, which
    /// the wait tells of a receive that waited.
    pub fn irecv(
        &mut self,
        source: Option<u32>,
        tag: Option<u32>,
        buf: Buf,
    ) -> Result<Request, Failed>
        ensures wrong { RefusesWrong self.old.group.peers source tag buf result }
        ensures ok { IfOk result (λ request. BeginsReceive (record { source = source; tag = tag; buf = buf; id = request.id }) self.old.begun.receives.items self.new.begun.receives.items (E.seen self.old.endpoint) (E.seen self.new.endpoint)) }
        ensures back { IfErr result (λ failed. failed.buf ≡ Some buf) }
        ensures err { OnErr result (self.new.begun.receives.items ≡ self.old.begun.receives.items) }
        ensures others { (self.new.begun.sends ≡ self.old.begun.sends) × (self.new.begun.ended ≡ self.old.begun.ended) }
        ensures fresh { IfOk result (λ request. request.id ≡ fresh_of self.old.begun) }
        ensures ranks { self.new.group ≡ self.old.group }
    {
        if let Some(wrong) = wrong_with(self.size(), source, tag) {
            return Err(Failed::with(error_of(wrong), buf));
        }
        let id = self.begun.fresh();
        let receive = Receiving {
            source,
            tag,
            buf,
            id,
        };
        begin_receive(&mut self.endpoint, &mut self.begun, receive)?;
        Ok(Request { id })
    }

    /// Waits for the end of a request of this world (MPI_Wait). Its buffer comes back with its status, or with what failed:
    /// `Truncate` where the message was longer than the buffer, which has its first bytes then.
    pub fn wait<R: Wait>(&mut self, rt: &R, request: Request) -> Result<Completed, Failed>
        ensures ended { IfSome (at_of request.id self.old.begun.ended.items) (λ at. EndsAs self.old.begun.ended.items at result self.new.begun.ended.items × (E.seen self.new.endpoint ≡ E.seen self.old.endpoint)) }
        ensures awaited { AwaitsEnd E.fixed request.id (rank_of (E.seen self.old.endpoint) self.old.begun) (rank_of (E.seen self.new.endpoint) self.new.begun) self.new.begun result }
        ensures ranks { self.new.group ≡ self.old.group }
    {
        let Request { id } = request;
        if let Some(ended) = take_ended(&mut self.begun.ended, id) {
            return ended.end;
        }
        self.await_end(rt, id)
    }

    /// Makes progress until the request has ended.
    fn await_end<R: Wait>(&mut self, rt: &R, id: u64) -> Result<Completed, Failed>
        ensures awaited { AwaitsEnd E.fixed id (rank_of (E.seen self.old.endpoint) self.old.begun) (rank_of (E.seen self.new.endpoint) self.new.begun) self.new.begun result }
        ensures ranks { self.new.group ≡ self.old.group }
    {
        for _ in rt.forever() {
            self.progress(rt, PATIENCE)?;
            match take_ended(&mut self.begun.ended, id) {
                Some(ended) => return ended.end,
                None => {}
            }
        }
        unreachable!()
    }

    /// Waits for the ends of all these requests, and gives them in the order of the requests (MPI_Waitall). Where some failed the first
    /// of these is the one that is told, once all have ended, and the others are let go.
    pub fn waitall<R: Wait>(
        &mut self,
        rt: &R,
        requests: Vec<Request>,
    ) -> Result<Vec<Completed>, Failed>
        ensures all { EndAll E.fixed (ids_of requests.items) (rank_of (E.seen self.old.endpoint) self.old.begun) (rank_of (E.seen self.new.endpoint) self.new.begun) result }
        ensures ranks { self.new.group ≡ self.old.group }
    {
        let mut all = Ok(Vec::new(self.alloc));
        'requests: for request in requests {
            let end = self.wait(rt, request);
            all = joined(all, end);
        }
        all
    }

    /// Makes progress until all sends that wait are posted, and all that was sent is on its way.
    pub(crate) fn settle<R: Wait>(&mut self, rt: &R) -> Result<(), Error>
        ensures sends { OnOk result (self.new.begun.sends.items ≡ []) }
        ensures flushed { OnOk result (is_flushed (E.seen self.new.endpoint).held.state ≡ true) }
        ensures goes { Goes E.fixed (rank_of (E.seen self.old.endpoint) self.old.begun) (rank_of (E.seen self.new.endpoint) self.new.begun) }
        ensures ranks { self.new.group ≡ self.old.group }
    {
        for _ in rt.forever() {
            if self.begun.sends.is_empty() && self.endpoint.is_flushed() {
                return Ok(());
            }
            self.progress(rt, 1)?;
        }
        unreachable!()
    }

    /// The first message that came and that a receive with these would take now, if there is one (MPI_Iprobe). It stays.
    pub fn iprobe(&mut self, source: Option<u32>, tag: Option<u32>) -> Result<Option<Status>, Error>
        ensures ok { IfOk result (λ met. met ≡ told (probed (E.seen self.new.endpoint).held.state source (wanted tag).0 (wanted tag).1)) }
        ensures tried { OnOk result (PostsAll E.fixed (rank_of (E.seen self.old.endpoint) self.old.begun) (rank_of (E.seen self.new.endpoint) self.new.begun)) }
        ensures ranks { self.new.group ≡ self.old.group }
    {
        if let Some(wrong) = wrong_with(self.size(), source, tag) {
            return Err(error_of(wrong));
        }
        progress(&mut self.endpoint, &mut self.begun, 0)?;
        post_receives(&mut self.endpoint, &mut self.begun)?;
        let (bits, ignore) = wanted(tag);
        let met = self.endpoint.probe(source, bits, ignore)?;
        Ok(told(met))
    }
}

/// All that are complete and one more, or the first failure. What comes behind that is let go.
fn joined(
    all: Result<Vec<Completed>, Failed>,
    end: Result<Completed, Failed>,
) -> Result<Vec<Completed>, Failed>
    ensures { Joins all end result }
{
    match all {
        Ok(mut completed) => match end {
            Ok(one) => match completed.push(one) {
                Ok(()) => Ok(completed),
                Err(_) => Err(Failed::from(Error::NoMem)),
            },
            Err(failed) => Err(failed),
        },
        Err(failed) => Err(failed),
    }
}
