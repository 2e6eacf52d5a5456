//! Calls of any endpoint.
ghost use Rattle.std.specs.Prelude.{◌≡◌, Some, false, OnOk, IfErr};
ghost use Rattle.fab_base.specs.declared.items.Kind.TheVariants.{Msg};
ghost use Rattle.fab_model.specs.Calls.{message};
ghost use Rattle.fab_face.specs.Answers.{SendsNot, Receives, Progressed, receive_call};

use fab_base::{Buf, Flags, NoMemory, Refused};
use fab_face::calls::{Messages, Multis, Progress};
use fab_face::events::Moved;

/// [`Progress::progress`].
pub fn progress<E: Progress>(endpoint: &mut E, budget: u32) -> Result<Moved, NoMemory>
    ensures progressed { Progressed E.fixed budget (E.seen endpoint.old) (E.seen endpoint.new) result }
{
    endpoint.progress(budget)
}

/// [`Messages::send`].
pub fn send<E: Messages>(
    endpoint: &mut E,
    dest: u32,
    buf: Buf,
    imm: Option<u64>,
    ctx: u64,
    flags: Flags,
) -> Result<(), Refused>
    ensures err { IfErr result (λ r. (r.buf ≡ buf) × SendsNot E.fixed (message Msg (Some ctx) dest 0 buf imm flags.level flags.completion flags.fence) (E.seen endpoint.old) (E.seen endpoint.new) r.why) }
{
    endpoint.send(dest, buf, imm, ctx, flags)
}

/// [`Multis::recv_multi`].
pub fn recv_multi<E: Multis>(
    endpoint: &mut E,
    source: Option<u32>,
    buf: Buf,
    least: u32,
    ctx: u64,
) -> Result<(), Refused>
    ensures ok { OnOk result (Receives (receive_call false source 0 0 buf (Some least) ctx) (E.seen endpoint.old) (E.seen endpoint.new)) }
{
    endpoint.recv_multi(source, buf, least, ctx)
}
