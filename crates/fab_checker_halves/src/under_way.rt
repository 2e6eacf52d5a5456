//! Whether items of a multi-receive are under way, and whether it is closing.
ghost use Rattle.std.specs.Prelude.{◌≡◌};
ghost use Rattle.std.specs.List.{list_any};
ghost use Rattle.fab_model.specs.State.{is_into};
ghost use Rattle.fab_model.specs.Complete.{is_made_by};
ghost use Rattle.fab_checker_halves.specs.Seen.{rx_of};
ghost use Rattle.fab_checker_halves.specs.Places.{is_under_way_besides};

use crate::halves::{Receiving, is_into};
use fab_base::Coming;
use fab_checker_values::lists::split;

/// Whether one of these items goes into the receive made by this call.
fn any_into(coming: &[Option<Coming>], call: u64) -> bool
    ensures { result ≡ list_any (is_into call) coming.now }
{
    coming.iter().any(|coming| is_into(call, coming))
}

impl Receiving {
    /// Whether an item of the receive made by this call is under way from another source than this.
    pub fn is_under_way_besides(&self, source: u32, call: u64) -> bool
        ensures { result ≡ is_under_way_besides source call (rx_of self.now) }
    {
        let (before, rest) = split(self.coming.as_slice(), source as usize);
        let (_, after) = split(rest, 1);
        any_into(before, call) || any_into(after, call)
    }

    /// Whether the multi-receive made by this call is closing.
    pub fn is_closing(&self, call: u64) -> bool
        ensures { result ≡ list_any (is_made_by call) self.now.closing.items }
    {
        self.closing.iter().any(|r| r.call == call)
    }
}
