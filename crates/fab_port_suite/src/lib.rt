//! What tests of ports stand on: one suite over any [`Port`](fab_link::Port), and a port for tests, [`NarrowPort`], which
//! can be full.
//!
//! The suite is written over the trait alone, and each function of it gives a `bool` or what is needed for one. So a test
//! makes ports, hands them to it and asserts. A message is one frame here.
#![tactic(auto)]

mod answering;
mod calls;
mod messages;
mod narrow;
mod pairs;
mod talking;
mod triples;

pub use answering::answer;
pub use calls::{gives_all, gives_none, is_peer, lends, post, posts_all, take};
pub use messages::{Message, item, pattern, whole};
pub use narrow::NarrowPort;
pub use pairs::{come_all_the_way, fills, gives_rest, goes_on_when_full, send_on_their_way};
pub use talking::{exchange, gives_stream, talk_in_threads};
pub use triples::{OF_ONE, OF_TWO, gives_each, stay_apart, three};
