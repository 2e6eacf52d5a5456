//! Whose turn it is: progress serves the lanes of its port in a circle, to peer 0, from peer 0, to peer 1 and so on.
ghost use Rattle.fab_face.specs.Circle.{IsOf};
ghost use Rattle.fab_ep.specs.Circle.{Follows};

use fab_face::lanes::Lane;

/// The lane behind this one, where there are so many peers.
pub(crate) fn following(lane: Lane, peers: u32) -> Lane
    requires { IsOf peers lane }
    ensures { Follows peers lane result }
{
    match lane {
        Lane::To(peer) => Lane::From(peer),
        Lane::From(peer) => {
            let next = peer + 1;
            if next < peers {
                Lane::To(next)
            } else {
                Lane::To(0)
            }
        }
    }
}
