//! What arrived at a peer and what it accepted to transmit, as plain lists.
//!
//! Nothing is left out: all items ever accepted are kept, and a list by peer has a member for each peer.
ghost use Rattle.std.specs.Prelude.{◌≡◌};
ghost use Rattle.std.specs.Option.{option_map};
ghost use Rattle.fab_model.specs.State.{coming_from, under_way, is_into};
ghost use Rattle.fab_checker_halves.specs.Seen.{rx_of};

use fab_base::{Arrival, Coming, Held, Item, List, Operation, Receive};

/// What arrived, and which receives wait for it.
#[derive(Drop)]
pub struct Receiving {
    pub posted: Vec<Receive>,
    pub closing: Vec<Receive>,
    pub coming: Vec<Option<Coming>>,
    pub unexpected: Vec<Arrival>,
    pub claimed: Vec<(u64, Arrival)>,
    pub heads: Vec<u64>,
    pub tails: Vec<u64>,
}

/// What was accepted for each peer, and how much of it is transmitted.
#[derive(Drop)]
pub struct Transmitting {
    pub accepted: Vec<List<Item>>,
    pub sent: Vec<u64>,
    pub live: Vec<Operation>,
    pub held: Vec<List<Held>>,
    pub ops: u64,
}

/// Whether the item goes into the receive made by this call.
pub fn is_into(call: u64, coming: &Option<Coming>) -> bool
    ensures { result ≡ is_into call coming.now }
{
    match coming {
        Some(Coming::Into(receive, _)) => receive.call == call,
        Some(Coming::Keep | Coming::Throw | Coming::Request | Coming::Answer) | None => false,
    }
}

impl Receiving {
    /// Whether an item of the receive made by this call has arrived and is not whole.
    pub fn is_under_way(&self, call: u64) -> bool
        ensures { result ≡ under_way (rx_of self.now) call }
    {
        self.coming.iter().any(|coming| is_into(call, coming))
    }

    /// Where the item goes that has arrived from the source and is not whole.
    pub fn coming_from(&self, source: u32) -> Option<&Coming>
        ensures { option_map (λ coming. coming.now) result ≡ coming_from (rx_of self.now) source }
    {
        match self.coming.get(source as usize) {
            Some(coming) => coming.as_ref(),
            None => None,
        }
    }
}
