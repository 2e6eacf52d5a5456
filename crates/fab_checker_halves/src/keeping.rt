//! The bytes of messages that no receive has taken yet.
ghost use Rattle.std.specs.Prelude.{◌≡◌, map, OnOk};
ghost use Rattle.fab_model.specs.Arrivals.{completed, keeping};
ghost use Rattle.fab_checker_halves.specs.Seen.{rx_of};

use crate::halves::Receiving;
use fab_base::{Arrival, Buf, NoMemory};

/// The arrival has its bytes, if they are these.
fn complete(arrival: &mut Arrival, source: u32, bytes: &Buf) -> Result<(), NoMemory>
    ensures { OnOk result (arrival.new ≡ completed source bytes.now arrival.old) }
{
    if arrival.source == source && arrival.bytes.is_none() {
        let copy = bytes.clone()?;
        arrival.bytes = Some(copy);
    }
    Ok(())
}

fn complete_unexpected(
    unexpected: &mut Vec<Arrival>,
    source: u32,
    bytes: &Buf,
) -> Result<(), NoMemory>
    ensures { OnOk result (unexpected.new.items ≡ map (completed source bytes.now) unexpected.old.items) }
{
    for place in 0..unexpected.len() {
        complete(&mut unexpected[place], source, bytes)?;
    }
    Ok(())
}

fn complete_claimed(
    claimed: &mut Vec<(u64, Arrival)>,
    source: u32,
    bytes: &Buf,
) -> Result<(), NoMemory>
    ensures { OnOk result (claimed.new.items ≡ map (λ c. (c.0, completed source bytes.now c.1)) claimed.old.items) }
{
    for place in 0..claimed.len() {
        complete(&mut claimed[place].1, source, bytes)?;
    }
    Ok(())
}

impl Receiving {
    /// The bytes join the arrival, which is unexpected or claimed.
    #[tactic(auto, unfolding(fab_model::specs::Arrivals::keeping))]
    pub fn keep(&mut self, source: u32, bytes: &Buf) -> Result<(), NoMemory>
        ensures { OnOk result (rx_of self.new ≡ keeping source bytes.now (rx_of self.old)) }
    {
        complete_unexpected(&mut self.unexpected, source, bytes)?;
        complete_claimed(&mut self.claimed, source, bytes)
    }
}
