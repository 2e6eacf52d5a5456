//! Calls of any endpoint's machine.
ghost use Rattle.std.specs.Prelude.{◌≡◌, ◌<◌, ◌-◌, false, true, Ok, None, length, min, IfNone, IfSome};
ghost use Rattle.fab_base.specs.declared.limits.TheConstants.{FRAME_BYTES};
ghost use Rattle.fab_model.specs.Calls.{do_call};
ghost use Rattle.fab_link.specs.Frames.{frame, IsSound};
ghost use Rattle.fab_face.specs.Acts.{Goes, Took};
ghost use Rattle.fab_face.specs.Answers.{Lends, is_final};
ghost use Rattle.fab_face.specs.Held.{begun_of};
ghost use Rattle.fab_face.specs.Looking.{looking};
ghost use Rattle.fab_face.specs.Machine.{IsNext, sending};

use fab_base::{Fault, FrameHead, NoMemory};
use fab_face::looking::{Look, Looking};
use fab_face::machine::{Machine, Message};
use fab_face::multis::MultiReceiving;

/// [`Machine::send_fault`].
pub fn send_fault<C: Machine>(machine: &C, message: &Message, bytes: &[u8]) -> Option<Fault>
    ensures none { IfNone result (is_final (do_call (C.held machine.now).state (sending message.now bytes.now)).0 ≡ false) }
{
    machine.send_fault(message, bytes)
}

/// [`Looking::look_fault`].
pub fn look_fault<C: Looking>(machine: &C, look: &Look) -> Option<Fault>
    ensures none { IfNone result (is_final (do_call (C.held machine.now).state (looking look.now)).0 ≡ false) }
{
    machine.look_fault(look)
}

/// [`MultiReceiving::multi_bytes`].
pub fn multi_bytes<C: MultiReceiving>(machine: &C, ctx: u64, at: u32, len: u32) -> Option<&[u8]>
    ensures some { IfSome result (λ bytes. Lends (C.held machine.now) ctx at len bytes.now) }
{
    machine.multi_bytes(ctx, at, len)
}

/// [`Machine::take`].
pub fn take<C: Machine>(
    machine: &mut C,
    source: u32,
    head: &FrameHead,
    bytes: &[u8],
) -> Result<bool, NoMemory>
    requires below { source < length (C.held machine.old).places }
    requires next { IsNext (begun_of (C.held machine.old) source) (frame head.now bytes.now) }
    requires filled { length bytes.now ≡ head.now.len }
    requires cut { head.now.len ≡ min FRAME_BYTES (head.now.item.total - head.now.from) }
    requires sound { IsSound head.now.item }
    ensures yes { result ≡ Ok true → Goes None (C.held machine.old) (Took source (frame head.now bytes.now)) (C.held machine.new) }
{
    machine.take(source, head, bytes)
}
