//! What all ranks do together. Each of them makes the same calls in the same order.
ghost use Rattle.std.specs.Prelude.{◌≡◌, ◌+◌, ◌-◌, ◌≤◌, true, length, min, Ok, IfOk, OnErr, OnOk};
ghost use Rattle.fabric.specs.Beginning.{IsFresh};
ghost use Rattle.fabric.specs.Progresses.{is_flushed};
ghost use Rattle.fabric.specs.Words.{Allgather, Allreduce, Broadcast, MOST_SHARE};
ghost use Rattle.mini_mpi.specs.Collecting.{Collects, CollectsAt, CollectsBytes, Completes, Finishes, Passes, filled_at, piece_at, standing_of};
ghost use Rattle.mini_mpi.specs.Going.{rank_of};

use crate::errors::Error;
use crate::world::World;
use fabric::{
    AtomicOp, Buf, Calls, Collective, EndpointOver, Fault, MOST_SHARE, NoMemory, Num, Refused,
};
use std::alloc::Global;
use std::sync::Wait;

/// A collective that was begun, or what is wrong: `invalid` where an argument is out of its range.
fn begun(begun: Result<Collective, Refused>, invalid: Error) -> Result<Collective, Error>
    ensures { IfOk result (λ collective. begun ≡ Ok collective) }
{
    match begun {
        Ok(collective) => Ok(collective),
        Err(refused) => match refused.why {
            Fault::Invalid => Err(invalid),
            why => Err(Error::from(why)),
        },
    }
}

/// Copies bytes over others, of which there are as many.
fn fill(into: &mut [u8], bytes: &[u8]) -> Result<(), Error>
    ensures ok { OnOk result ((into.new ≡ bytes.now) × (length bytes.now ≡ length into.old)) }
    ensures err { OnErr result (into.new ≡ into.old) }
{
    if into.len() != bytes.len() {
        return Err(Error::Count);
    }
    into.copy_from_slice(bytes);
    Ok(())
}

/// Where the piece ends that begins here.
fn end_of(bytes: &[u8], at: usize) -> usize
    requires { at ≤ length bytes.now }
    ensures { result ≡ at + min MOST_SHARE (length bytes.now - at) }
{
    at + MOST_SHARE.min(bytes.len() - at)
}

/// A copy of the piece that begins here.
fn piece_at(alloc: Global, bytes: &[u8], at: usize) -> Result<Buf, NoMemory>
    requires { at ≤ length bytes.now }
    ensures { IfOk result (λ piece. piece ≡ piece_at bytes.now at) }
{
    let end = end_of(bytes, at);
    Buf::copy(alloc, &bytes[at..end])
}

/// Copies bytes over the piece that begins here, which has as many.
fn fill_at(into: &mut [u8], at: usize, bytes: &[u8]) -> Result<(), Error>
    requires { at ≤ length into.old }
    ensures long { OnOk result (length bytes.now ≡ min MOST_SHARE (length into.old - at)) }
    ensures filled { OnOk result (into.new ≡ filled_at into.old at bytes.now) }
{
    let end = end_of(into, at);
    if bytes.len() != end - at {
        return Err(Error::Count);
    }
    into[at..end].copy_from_slice(bytes);
    Ok(())
}

impl<E: Calls + Drop> World<E> {
    /// Drives a collective until it is done.
    fn complete<R: Wait>(&mut self, rt: &R, mut collective: Collective) -> Result<Buf, Error>
        requires fresh { IsFresh collective }
        ensures done { IfOk result (λ bytes. Completes E.fixed collective (rank_of (E.seen self.old.endpoint) self.old.begun) (rank_of (E.seen self.new.endpoint) self.new.begun) bytes) }
        ensures ranks { self.new.group ≡ self.old.group }
    {
        for _ in rt.forever() {
            match collective.drive(&mut self.endpoint)? {
                Some(bytes) => return Ok(bytes),
                None => {}
            }
            self.progress_for(rt, &mut collective)?;
        }
        unreachable!()
    }

    /// Waits until all ranks have come (MPI_Barrier).
    pub fn barrier<R: Wait>(&mut self, rt: &R) -> Result<(), Error>
        ensures passed { OnOk result (Passes E.fixed (standing_of self.old.group (E.seen self.old.endpoint) self.old.begun) (standing_of self.new.group (E.seen self.new.endpoint) self.new.begun)) }
        ensures ranks { (self.new.group.rank ≡ self.old.group.rank) × (self.new.group.peers ≡ self.old.group.peers) }
    {
        let collective = begun(self.group.barrier(), Error::Other)?;
        self.complete(rt, collective)?;
        Ok(())
    }

    /// The piece of a broadcast that begins here.
    fn bcast_piece<R: Wait>(
        &mut self,
        rt: &R,
        root: u32,
        bytes: &mut [u8],
        at: usize,
    ) -> Result<(), Error>
        requires { at ≤ length bytes.old }
        ensures piece { OnOk result (CollectsAt E.fixed (Broadcast root) at bytes.old bytes.new (standing_of self.old.group (E.seen self.old.endpoint) self.old.begun) (standing_of self.new.group (E.seen self.new.endpoint) self.new.begun)) }
        ensures ranks { (self.new.group.rank ≡ self.old.group.rank) × (self.new.group.peers ≡ self.old.group.peers) }
    {
        let share = piece_at(self.alloc, bytes, at)?;
        let collective = begun(self.group.broadcast(root, share), Error::Root)?;
        let given = self.complete(rt, collective)?;
        fill_at(bytes, at, given.as_slice())
    }

    /// Each rank gets the root's bytes (MPI_Bcast), of which all have as many. They go in pieces of 4,096.
    pub fn bcast<R: Wait>(&mut self, rt: &R, root: u32, bytes: &mut [u8]) -> Result<(), Error>
        ensures gives { OnOk result (CollectsBytes E.fixed (Broadcast root) bytes.old (standing_of self.old.group (E.seen self.old.endpoint) self.old.begun) (standing_of self.new.group (E.seen self.new.endpoint) self.new.begun) bytes.new) }
        ensures ranks { (self.new.group.rank ≡ self.old.group.rank) × (self.new.group.peers ≡ self.old.group.peers) }
    {
        'pieces: for n in 0..bytes.len().div_ceil(MOST_SHARE) {
            self.bcast_piece(rt, root, bytes, n * MOST_SHARE)?;
        }
        Ok(())
    }

    /// Each rank gets the bytes of all ranks, in order of ranks (MPI_Allgather). All ranks have as many, at most 4,096, and
    /// `all` has room for just those of all ranks: else `Count`, and what `all` has is what it had.
    pub fn allgather<R: Wait>(&mut self, rt: &R, own: &[u8], all: &mut [u8]) -> Result<(), Error>
        ensures gives { OnOk result (Collects E.fixed Allgather own.now (standing_of self.old.group (E.seen self.old.endpoint) self.old.begun) (standing_of self.new.group (E.seen self.new.endpoint) self.new.begun) all.new) }
        ensures err { OnErr result (all.new ≡ all.old) }
        ensures ranks { (self.new.group.rank ≡ self.old.group.rank) × (self.new.group.peers ≡ self.old.group.peers) }
    {
        let share = Buf::copy(self.alloc, own)?;
        let collective = begun(self.group.allgather(share), Error::Count)?;
        let bytes = self.complete(rt, collective)?;
        fill(all, bytes.as_slice())
    }

    /// The piece of an allreduce that begins here.
    fn allreduce_piece<R: Wait>(
        &mut self,
        rt: &R,
        op: AtomicOp,
        num: Num,
        bytes: &mut [u8],
        at: usize,
    ) -> Result<(), Error>
        requires { at ≤ length bytes.old }
        ensures piece { OnOk result (CollectsAt E.fixed (Allreduce op num) at bytes.old bytes.new (standing_of self.old.group (E.seen self.old.endpoint) self.old.begun) (standing_of self.new.group (E.seen self.new.endpoint) self.new.begun)) }
        ensures ranks { (self.new.group.rank ≡ self.old.group.rank) × (self.new.group.peers ≡ self.old.group.peers) }
    {
        let share = piece_at(self.alloc, bytes, at)?;
        let collective = begun(self.group.allreduce(op, num, share), Error::Op)?;
        let given = self.complete(rt, collective)?;
        fill_at(bytes, at, given.as_slice())
    }

    /// Each element becomes what those of all ranks come to, in order of ranks (MPI_Allreduce with MPI_IN_PLACE). All ranks
    /// have as many elements, which are little-endian. They go in pieces of 4,096 bytes.
    pub fn allreduce<R: Wait>(
        &mut self,
        rt: &R,
        op: AtomicOp,
        num: Num,
        bytes: &mut [u8],
    ) -> Result<(), Error>
        ensures gives { OnOk result (CollectsBytes E.fixed (Allreduce op num) bytes.old (standing_of self.old.group (E.seen self.old.endpoint) self.old.begun) (standing_of self.new.group (E.seen self.new.endpoint) self.new.begun) bytes.new) }
        ensures ranks { (self.new.group.rank ≡ self.old.group.rank) × (self.new.group.peers ≡ self.old.group.peers) }
    {
        'pieces: for n in 0..bytes.len().div_ceil(MOST_SHARE) {
            self.allreduce_piece(rt, op, num, bytes, n * MOST_SHARE)?;
        }
        Ok(())
    }

    /// Waits until all ranks have come and everything that this one sent is on its way (MPI_Finalize). The endpoint is given back, to
    /// be closed or dropped.
    pub fn finalize<R: Wait>(mut self, rt: &R) -> Result<EndpointOver<E>, Error>
        ensures finished { IfOk result (λ endpoint. Finishes E.fixed (standing_of self.group (E.seen self.endpoint) self.begun) (E.seen endpoint)) }
        ensures flushed { IfOk result (λ endpoint. is_flushed (E.seen endpoint).held.state ≡ true) }
    {
        self.barrier(rt)?;
        self.settle(rt)?;
        let World { endpoint, .. } = self;
        Ok(endpoint)
    }
}
