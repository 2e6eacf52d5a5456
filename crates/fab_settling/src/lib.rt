//! What a call asks for, judged before and without the machine, and what the ends of operations and of receives write, count and book.
//!
//! A half of an endpoint hands out what ended; here its completion is written into the queue, it is counted, and a
//! reply that is due goes to the transmit half (fi_cq(3), fi_cntr(3)). Kinds, capabilities, sizes and forms are told of what a
//! call hands over alone, and so are the items that it makes and what a look or a withdrawal does to a half. The machine of
//! `fab_core` makes its calls of these, and decides by its state what is left.
//!
//! | file | what it does |
//! |---|---|
//! | `calls` | the number of calls, and the call that a completion belongs to |
//! | `ending` | operations end |
//! | `handing` | receives complete, replies are booked |
//! | `serving` | requests of other peers are performed |
//! | `members`, `places` | multi-receives whose end was not read, and where their buffers are |
//! | `granted` | what the capabilities allow |
//! | `messages` | messages: sizes, and the items that they make |
//! | `requests` | reads, writes and atomics: sizes, forms, and the items that they make |
//! | `receives` | receives are withdrawn and told, and buffers for many messages told apart |
//! | `looks` | what looks do, tell and book |
//! | `items` | items that come in: whether one is a reply, asks for one, or is whole |
#![tactic(auto)]

pub mod calls;
pub mod ending;
pub mod granted;
pub mod handing;
pub mod items;
pub mod looks;
pub mod members;
pub mod messages;
pub mod places;
pub mod receives;
pub mod requests;
pub mod serving;
