//! The receives posted, and the messages that are unexpected or claimed.
ghost use Rattle.std.specs.Prelude.{◌≡◌, ◌==◌, OnOk, IfSome, IfNone, find, position};
ghost use Rattle.std.specs.Option.{option_map};
ghost use Rattle.fab_model.specs.Matching.{takes};
ghost use Rattle.fab_model.specs.Receiving.{draws, draw_due, goes, without_first, joining_posted, claiming, without_claim};
ghost use Rattle.fab_checker_halves.specs.Seen.{rx_of};
ghost use Rattle.fab_checker_halves.specs.Places.{taken_first, claimed_under};

use crate::halves::Receiving;
use fab_base::{Arrival, Coming, NoMemory, Receive, Want};
use fab_checker_values::matching::take_arrival;
use fab_checker_values::receives::draws;

/// Where the first message stands that is claimed under the context.
fn place_of_claim(claimed: &[(u64, Arrival)], ctx: u64) -> Option<usize>
    ensures { result ≡ position (λ c. c.0 == ctx) claimed.now }
{
    claimed.iter().position(|claim| claim.0 == ctx)
}

impl Receiving {
    /// Where the first receive stands that takes one of the unexpected messages.
    pub fn place_of_drawing(&self) -> Option<usize>
        ensures { result ≡ position (draws self.now.unexpected.items) self.now.posted.items }
    {
        let unexpected = self.unexpected.as_slice();
        self.posted.iter().position(|r| draws(unexpected, r))
    }

    /// Whether a posted multi-receive takes an unexpected message.
    pub fn draw_due(&self) -> bool
        ensures { result ≡ draw_due (rx_of self.now) }
    {
        let unexpected = self.unexpected.as_slice();
        self.posted.iter().any(|r| draws(unexpected, r))
    }

    /// What still comes from the source goes there.
    pub fn send_to(&mut self, source: u32, to: Coming)
        ensures { rx_of self.new ≡ goes source to (rx_of self.old) }
    {
        if (source as usize) < self.coming.len() {
            self.coming[source as usize] = Some(to);
        }
    }

    /// A receive joins those posted.
    pub fn post(&mut self, receive: Receive) -> Result<(), NoMemory>
        ensures { OnOk result (rx_of self.new ≡ joining_posted receive (rx_of self.old)) }
    {
        self.posted.push(receive)?;
        Ok(())
    }

    /// Takes the message that the receive takes at once. A multi-receive leaves it to the draws.
    pub fn take_for(&mut self, receive: &Receive) -> Option<Arrival>
        ensures found { result ≡ taken_first receive.now.least receive.now.want (rx_of self.old) }
        ensures some { IfSome result (λ _. rx_of self.new ≡ without_first receive.now.want (rx_of self.old)) }
        ensures none { IfNone result (rx_of self.new ≡ rx_of self.old) }
    {
        if receive.least.is_some() {
            return None;
        }
        self.take_unexpected(&receive.want)
    }

    /// Takes the first unexpected message that the want takes.
    pub fn take_unexpected(&mut self, want: &Want) -> Option<Arrival>
        ensures found { result ≡ find (takes want.now) self.old.unexpected.items }
        ensures rest { rx_of self.new ≡ without_first want.now (rx_of self.old) }
        ensures none { IfNone result (rx_of self.new ≡ rx_of self.old) }
    {
        take_arrival(&mut self.unexpected, want)
    }

    /// The message that is claimed under the context.
    pub fn claim_of(&self, ctx: u64) -> Option<&Arrival>
        ensures { option_map (λ a. a.now) result ≡ claimed_under ctx (rx_of self.now) }
    {
        match self.claimed.iter().find(|claim| claim.0 == ctx) {
            Some(claim) => Some(&claim.1),
            None => None,
        }
    }

    /// Takes the message that is claimed under the context.
    pub fn take_claim(&mut self, ctx: u64) -> Option<Arrival>
        ensures found { result ≡ claimed_under ctx (rx_of self.old) }
        ensures rest { rx_of self.new ≡ without_claim ctx (rx_of self.old) }
        ensures none { IfNone result (rx_of self.new ≡ rx_of self.old) }
    {
        let Some(at) = place_of_claim(self.claimed.as_slice(), ctx) else {
            return None;
        };
        let (_, arrival) = self.claimed.remove(at);
        Some(arrival)
    }

    /// The arrival is set aside under the context.
    pub fn claim(&mut self, ctx: u64, arrival: Arrival) -> Result<(), NoMemory>
        ensures { OnOk result (rx_of self.new ≡ claiming ctx arrival (rx_of self.old)) }
    {
        self.claimed.push((ctx, arrival))?;
        Ok(())
    }
}
