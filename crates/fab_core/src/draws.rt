//! Draws: a posted multi-receive takes a message that no receive took before (FI_MULTI_RECV of fi_msg(3)).
ghost use Rattle.std.specs.Prelude.{◌≡◌, true, IsTrue};
ghost use Rattle.fab_model.specs.Receiving.{draw_due};
ghost use Rattle.fab_cq.specs.Queues.{has_room};
ghost use Rattle.fab_rx.specs.Drawing.{drawn, entries_drawn};
ghost use Rattle.fab_core.specs.Draws.{drew};

use crate::callers::OfDrawer;
use crate::parts::Core;
use fab_match::Matcher;
use fab_rx::{Drawn, Inbox};
use fab_settling::handing::{hand_last, hand_over};
use std::snapshot::Snapshot;

impl<M: Matcher> Core<M> {
    /// Makes the draw that is due. What it writes has room.
    pub(crate) fn make_draw(&mut self)
        requires due { draw_due self.old.rx.rx ≡ true }
        requires room { IsTrue (has_room (entries_drawn (drawn self.old.rx)) self.old.cq) }
        ensures { self.new ≡ drew self.old }
    {
        self.rx.known();
        self.rx.opened();
        self.tx.known();
        let about = Snapshot::of(&self.rx);
        let drawn = self.rx.draw();
        let Core {
            tx,
            cq,
            counters,
            multis,
            alloc,
            ..
        } = self;
        match drawn {
            Drawn::GoesOn => {}
            Drawn::Part(completed) => {
                let due = completed.head.ack.at_match();
                hand_over::<Snapshot<Inbox<M>>, OfDrawer>(
                    *alloc, cq, counters, tx, &about, due, completed,
                );
            }
            Drawn::Last(completed, released) => {
                let due = completed.head.ack.at_match();
                hand_last::<Snapshot<Inbox<M>>, OfDrawer>(
                    *alloc, cq, counters, tx, multis, &about, due, completed, released,
                );
            }
        }
    }
}
