//! Which posted receive a cancel takes (fi_cancel of fi_endpoint(3)).
ghost use Rattle.std.specs.Prelude.{◌≡◌, IfNone, is_some, position};
ghost use Rattle.fab_model.specs.Receiving.{may_leave, cancellable, without_posted};
ghost use Rattle.fab_checker_halves.specs.Seen.{rx_of};
ghost use Rattle.fab_checker_halves.specs.Places.{chosen};

use crate::halves::Receiving;
use fab_base::Receive;

impl Receiving {
    /// Whether the receive has this context, where one is named, and no items under way.
    fn may_leave(&self, which: Option<u64>, receive: &Receive) -> bool
        ensures { result ≡ may_leave (rx_of self.now) (chosen which) receive.now }
    {
        let is_chosen = match which {
            None => true,
            Some(ctx) => receive.ctx == ctx,
        };
        is_chosen && !self.is_under_way(receive.call)
    }

    /// Where the first receive stands that may be cancelled.
    fn place_of_cancellable(&self, which: Option<u64>) -> Option<usize>
        ensures { result ≡ position (may_leave (rx_of self.now) (chosen which)) self.now.posted.items }
    {
        self.posted.iter().position(|r| self.may_leave(which, r))
    }

    /// Whether a receive may be cancelled.
    pub fn can_cancel(&self, which: Option<u64>) -> bool
        ensures { result ≡ is_some (cancellable (chosen which) (rx_of self.now)) }
    {
        self.place_of_cancellable(which).is_some()
    }

    /// Takes the first receive that may be cancelled.
    pub fn take_cancellable(&mut self, which: Option<u64>) -> Option<Receive>
        ensures found { result ≡ cancellable (chosen which) (rx_of self.old) }
        ensures rest { rx_of self.new ≡ without_posted (chosen which) (rx_of self.old) }
        ensures none { IfNone result (rx_of self.new ≡ rx_of self.old) }
    {
        let Some(at) = self.place_of_cancellable(which) else {
            return None;
        };
        Some(self.posted.remove(at))
    }
}
