//! One frame posted over any port: what a transmit call and progress do again and again.
ghost use Rattle.std.specs.Prelude.{◌≡◌, ◌≢◌, ◌<◌, ◌≤◌, ◌∷◌, [], Ok, true, false, Some, OnErr};
ghost use Rattle.fab_link.specs.Meaning.{Others, Repays, end_of};
ghost use Rattle.fab_link.specs.Cut.{IsItem};
ghost use Rattle.fab_link.specs.Frames.{IsSound};
ghost use Rattle.fab_face.specs.Held.{IsPlaced, piece};
ghost use Rattle.fab_ep.specs.Tries.{next_of};
ghost use Rattle.fab_face.specs.Ports.{lanes_in};
ghost use Rattle.fab_face.specs.Acts.{Ported, Posted};
ghost use Rattle.fab_face.specs.Answers.{SawFull};

use fab_base::{FRAME_BYTES, FrameHead, NoMemory};
use fab_face::machine::Next;
use fab_link::{Port, PostRefused};

/// Posts the next frame of an item of which so many bytes are posted. False where the port refused it.
#[tactic(auto, using(fab_face::proofs::Joining::moved_same))]
pub fn post_next<P: Port>(
    port: &mut P,
    dest: u32,
    item: &Next<'_>,
    place: u32,
) -> Result<bool, NoMemory>
    requires below { dest < P.peer_count port.old }
    requires placed { IsPlaced (end_of (P.outs port.old dest)) place (Some (next_of item.now)) }
    requires whole { IsItem (next_of item.now) }
    requires sound { IsSound item.now.head.now }
    requires within { place ≤ item.now.head.now.total }
    requires repays { Repays (P.outs port.old dest) (P.ins port.old dest) (piece (next_of item.now) place).head }
    ensures yes { result ≡ Ok true → Ported (lanes_in P.Port port.old) (lanes_in P.Port port.new) (Posted dest (piece (next_of item.now) place) ∷ []) }
    ensures no { result ≡ Ok false → Ported (lanes_in P.Port port.old) (lanes_in P.Port port.new) [] }
    ensures full { result ≡ Ok false → SawFull (lanes_in P.Port port.old) (lanes_in P.Port port.new) dest }
    ensures err { OnErr result (Ported (lanes_in P.Port port.old) (lanes_in P.Port port.new) []) }
    ensures ins { P.ins port.new ≡ P.ins port.old }
    ensures others { Others dest (P.outs port.old) (P.outs port.new) }
    ensures memory { OnErr result (P.FIXED ≢ true) }
{
    let len = FRAME_BYTES.min(item.head.total - place);
    let bytes = item.bytes;
    let start = place as usize;
    let end = start + len as usize;
    let head = FrameHead {
        item: *item.head,
        from: place,
        len,
    };
    match port.post(dest, head, &bytes[start..end]) {
        Ok(()) => Ok(true),
        Err(PostRefused::LaneFull) => Ok(false),
        Err(PostRefused::PoolFull) => Ok(false),
        Err(PostRefused::NoMemory) => Err(NoMemory),
    }
}
