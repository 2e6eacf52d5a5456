//! Calls of any port.
ghost use Rattle.std.specs.Prelude.{◌≡◌, ◌<◌, ◌++◌, ◌∷◌, [], false, Option, is_some, length, IsErrOf, OnOk};
ghost use Rattle.fab_base.specs.Counts.{Rose};
ghost use Rattle.fab_base.specs.declared.frames.FrameRef.{FrameRef};
ghost use Rattle.fab_link.specs.Frames.{frame, Continues};
ghost use Rattle.fab_link.specs.Meaning.{Fronted, Noticed, Repays, end_of};

use fab_base::FrameHead;
use fab_link::{Port, PostRefused};

/// [`Port::post`].
pub fn post<P: Port>(
    port: &mut P,
    dest: u32,
    head: FrameHead,
    bytes: &[u8],
) -> Result<(), PostRefused>
    requires below { dest < P.peer_count port.old }
    requires continues { Continues (end_of (P.outs port.old dest)) head }
    requires filled { length bytes.now ≡ head.len }
    requires repays { Repays (P.outs port.old dest) (P.ins port.old dest) head }
    ensures ok { OnOk result ((P.outs port.new dest).frames ≡ (P.outs port.old dest).frames ++ frame head bytes.now ∷ []) }
    ensures lane_full { IsErrOf result PostRefused.LaneFull
        → Rose (P.outs port.old dest).lane_full_seen (P.outs port.new dest).lane_full_seen
        × ((P.outs port.new dest).full_at ≡ length (P.outs port.old dest).frames) }
    ensures pool_full { IsErrOf result PostRefused.PoolFull
        → Rose (P.outs port.old dest).pool_full_seen (P.outs port.new dest).pool_full_seen
        × ((P.outs port.new dest).full_at ≡ length (P.outs port.old dest).frames) }
    ensures noticed { Noticed (P.outs port.old dest) (P.outs port.new dest) }
{
    port.post(dest, head, bytes)
}

/// Whether [`Port::front`] lends a frame, and what it leaves of the lane (its clause `after`).
pub fn comes<P: Port>(port: &mut P, src: u32) -> bool
    requires { src < P.peer_count port.old }
    ensures after { (answer : Option FrameRef) × (result ≡ is_some answer) × Fronted (P.ins port.old src) (P.ins port.new src) answer }
    ensures saw { result ≡ false → P.SawNone port.old port.new src }
{
    port.front(src).is_some()
}
