//! The receive half of an endpoint: posted receives, unexpected messages, and items that are not whole
//! (fi_msg(3), fi_tagged(3)).
//!
//! An [`Inbox`] matches a message when its first frame comes. The bytes of a matched message go straight into
//! its receive's buffer, as they come; those of another one into a buffer of their own, as those of a request
//! or an answer do. What a call has to write, count or send it hands out: the inbox knows neither the
//! completion queue nor the transmit side. A message that no receive took may be looked at, claimed, taken and dropped
//! (FI_PEEK, FI_CLAIM and FI_DISCARD of fi_tagged(3)): its bytes stay where they are until they leave.
//!
//! A multi-receive (FI_MULTI_RECV of fi_msg(3)) stays posted and takes message after message, each at a place of its
//! own. A message under way to it gathers elsewhere, and comes into its buffer once it is whole: so the buffer can be
//! lent meanwhile ([`Inbox::buffer_of`](inbox::Inbox::buffer_of)). Once too little of the buffer is free it is closing: it
//! leaves the posted receives, and its buffer comes back with its last message. What no receive took it gets by draws
//! ([`Inbox::draw`](inbox::Inbox::draw)), one message at a time.
//!
//! Contracts see the machine's own lists with all that ever came. Stored is only what is still needed: a
//! [`Record`](fab_record::record::Record) holds the rest, and the invariant says how the two belong together.
#![tactic(auto)]

mod cancelling;
mod claims;
pub mod draws;
pub mod ends;
mod filling;
pub mod inbox;
pub mod lending;
pub mod looking;
mod multis;
mod outgoing;
mod past;
mod results;
mod stored;
mod table;

pub use inbox::Inbox;
pub use results::{Cancelled, Completed, Drawn, Finished, Posted, Released, Seen};
