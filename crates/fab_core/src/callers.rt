//! To which call a completion belongs: contracts alone know, from the halves as they were.
ghost use Rattle.std.specs.Option.{option_map};
ghost use Rattle.fab_model.specs.State.{coming_from};
ghost use Rattle.fab_model.specs.Receiving.{cancellable};
ghost use Rattle.fab_rx.specs.Leaving.{is_meant};
ghost use Rattle.fab_rx.specs.Results.{call_into};
ghost use Rattle.fab_core.specs.Draws.{call_drawn};

use fab_match::Matcher;
use fab_record::caller::Caller;
use fab_rx::Inbox;
use std::snapshot::Snapshot;

/// The call of the receive into which the item of this source goes.
pub(crate) struct IntoReceive;

impl<M: Matcher> Caller<(Snapshot<Inbox<M>>, u32)> for IntoReceive {
    ghost call = { λ x. call_into (coming_from x.0.value.rx x.1) };
}

/// The call of the multi-receive that draws.
pub(crate) struct OfDrawer;

impl<M: Matcher> Caller<Snapshot<Inbox<M>>> for OfDrawer {
    ghost call = { λ x. call_drawn x.value.rx };
}

/// The call of the posted receive that is cancelled.
pub(crate) struct OfReceive;

impl<M: Matcher> Caller<(Snapshot<Inbox<M>>, Option<u64>)> for OfReceive {
    ghost call = { λ x. option_map (λ r. r.call) (cancellable (is_meant x.1) x.0.value.rx) };
}
