//! What one endpoint does.
use crate::calls::{
    ARRIVED, COPIED, injects, posts, posts_many, posts_tagged, posts_within, sends, sends_tagged,
    sends_within,
};
use crate::counters::Count;
use crate::lengths::{sends_all, takes_all};
use crate::looks::Look;
use crate::names::Name;
use crate::refusals::Refusal;
use crate::remote::Request;
use fabric::{COMPLETES, Calls, EndpointOver};
use std::alloc::Global;

/// A call of one endpoint, which is accepted but where it is said otherwise. Messages without an index go to peer 0.
#[derive(Clone, Copy, Drop)]
pub enum Deed {
    /// A receive of so many bytes, with this context.
    Posts(u64, u64),
    /// A receive under this tag, of so many bytes, with this context.
    PostsTagged(u64, u64, u64),
    /// A receive of one byte that is tried so often, with this context.
    PostsWithin(u32, u64),
    /// A buffer of 16 bytes for many messages, with this context.
    PostsMany(u64),
    /// A message of these bytes to this index, with this context.
    Sends(u32, &'static [u8], u64),
    /// A message with this data, and this context.
    SendsData(&'static [u8], u64, u64),
    /// A message that is complete once it is copied, with this context.
    SendsCopied(&'static [u8], u64),
    /// A message that is complete once it is whole at its peer, with this context.
    SendsArrived(&'static [u8], u64),
    /// A message that is tried so often, with this context.
    SendsWithin(u32, &'static [u8], u64),
    /// A message under this tag, with data if there is some, and this context.
    SendsTagged(u64, &'static [u8], Option<u64>, u64),
    /// An injected message, with data if there is some.
    Injects(&'static [u8], Option<u64>),
    /// A message in the buffer for many of this context lies at this place, with these bytes, which are so many.
    HasPart(u64, u32, &'static [u8], u32),
    /// So many operations have not ended.
    HasUnderWay(u64),
    /// Messages of several lengths, tagged or not, and receives that take them in order.
    SendsAll(bool),
    TakesAll(bool),
    Count(Count),
    Look(Look),
    Name(Name),
    Refuses(Refusal),
    Request(Request),
}

impl Deed {
    /// Whether it goes so.
    pub(crate) fn goes<E: Calls + Drop>(
        self,
        alloc: Global,
        endpoint: &mut EndpointOver<E>,
    ) -> bool {
        match self {
            Deed::Posts(len, ctx) => posts(alloc, endpoint, len, ctx),
            Deed::PostsTagged(tag, len, ctx) => posts_tagged(alloc, endpoint, tag, len, ctx),
            Deed::PostsWithin(times, ctx) => posts_within(alloc, endpoint, times, ctx),
            Deed::PostsMany(ctx) => posts_many(alloc, endpoint, ctx),
            Deed::Sends(dest, bytes, ctx) => {
                sends(alloc, endpoint, dest, bytes, None, ctx, COMPLETES)
            }
            Deed::SendsData(bytes, imm, ctx) => {
                sends(alloc, endpoint, 0, bytes, Some(imm), ctx, COMPLETES)
            }
            Deed::SendsCopied(bytes, ctx) => sends(alloc, endpoint, 0, bytes, None, ctx, COPIED),
            Deed::SendsArrived(bytes, ctx) => sends(alloc, endpoint, 0, bytes, None, ctx, ARRIVED),
            Deed::SendsWithin(times, bytes, ctx) => {
                sends_within(alloc, endpoint, times, bytes, ctx)
            }
            Deed::SendsTagged(tag, bytes, imm, ctx) => {
                sends_tagged(alloc, endpoint, tag, bytes, imm, ctx)
            }
            Deed::Injects(bytes, imm) => injects(endpoint, bytes, imm),
            Deed::HasPart(ctx, at, bytes, len) => endpoint.multi_bytes(ctx, at, len) == Some(bytes),
            Deed::HasUnderWay(count) => endpoint.under_way() == count,
            Deed::SendsAll(is_tagged) => sends_all(alloc, endpoint, is_tagged),
            Deed::TakesAll(is_tagged) => takes_all(alloc, endpoint, is_tagged),
            Deed::Count(count) => count.goes(alloc, endpoint),
            Deed::Look(look) => look.goes(alloc, endpoint),
            Deed::Name(name) => name.goes(alloc, endpoint),
            Deed::Refuses(refusal) => refusal.is_given(alloc, endpoint),
            Deed::Request(request) => request.goes(alloc, endpoint),
        }
    }
}
