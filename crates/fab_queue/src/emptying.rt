//! What is inside the lanes is taken out.
ghost use Rattle.std.specs.Prelude.{◌≡◌, ℕ, ◌+◌, ◌<◌, ◌≤◌, [], true, length, vec_capacity, option_to_list};
ghost use Rattle.crossbeam_queue.specs.Passes.{IsPassOf, IsSamePass, ruled_capacity};
ghost use Rattle.fab_queue.specs.Lanes.{frames_of, known};
ghost use Rattle.fab_queue.specs.Laid.{row};
ghost use Rattle.fab_queue.specs.Gather.{Drained, IsInside, Receives, Received, ReceivesAll, ReceivedAll};

use crate::inlet::Inlet;
use crate::lane::{Gets, Lane, Log, Roles, Sent};
use crate::outlet::Outlet;
use crossbeam_queue::Pass;
use fab_base::Frame;
use fab_link::{PlainPort, Port};
use std::sync::Wait;

/// Gets out all that is inside a lane, behind the frames given.
fn empty_lane<R: Wait>(
    rt: &R,
    lane: &Lane,
    pass: &mut Pass<Sent, Log>,
    mut frames: Vec<Frame>,
) -> Vec<Frame>
    requires pass { IsPassOf lane.now pass.old }
    requires whole { ((known pass.old).puts ≡ true) × ((known pass.old).gets ≡ true) }
    requires room { length frames.items + ruled_capacity lane.now ≤ vec_capacity frames }
    ensures pass { IsSamePass pass.old pass.new }
    ensures puts { ((known pass.new).puts ≡ true) × ((known pass.new).put ≡ (known pass.old).put) }
    ensures inside { IsInside (known pass.old) frames.items result.items }
{
    let _count = lane.len_as::<Gets, R>(rt, pass);
    while let Some(sent) = lane.pop_as::<Gets, R>(rt, pass) {
        frames.push(sent.frame).unwrap();
    }
    frames
}

/// The frame that is lent, if any, as the first one in its room.
fn first_of(lent: Option<Sent>, mut room: Vec<Frame>) -> Vec<Frame>
    requires { (room.items ≡ []) × (0 < vec_capacity room) }
    ensures frames { result.items ≡ frames_of (option_to_list lent) }
    ensures capacity { vec_capacity room ≤ vec_capacity result }
    ensures few { length result.items ≤ 1 }
{
    if let Some(sent) = lent {
        room.push(sent.frame).unwrap();
    }
    room
}

/// Takes all that was posted to a lane and not taken.
fn drain<R: Wait>(rt: &R, outlet: &mut Outlet, inlet: Inlet, room: Vec<Frame>) -> Vec<Frame>
    requires lane { outlet.old.lane ≡ inlet.lane }
    requires room { (room.items ≡ []) × (outlet.old.room + 1 ≤ vec_capacity room) }
    ensures outlet { outlet.new ≡ outlet.old }
    ensures drained { Drained outlet.old inlet result.items }
{
    let Inlet { pass, lent, .. } = inlet;
    let frames = first_of(lent, room);
    let lane = &outlet.lane;
    lane.absorb::<Roles>(&mut outlet.pass, pass);
    empty_lane(rt, lane, &mut outlet.pass, frames)
}

/// Takes all that is inside the lanes to one peer, as what came to its plain port.
fn receive<R: Wait>(
    rt: &R,
    outs: &mut [Vec<Outlet>],
    mut ins: Vec<Inlet>,
    mut rooms: Vec<Vec<Frame>>,
    port: &mut PlainPort,
)
    requires { Receives outs.old ins.items rooms.items port.old }
    ensures outs { (length outs.new ≡ length outs.old) × ((s : ℕ) → row outs.new s ≡ row outs.old s) }
    ensures received { Received outs.old ins.items port.old port.new }
{
    let reader = port.me() as usize;
    while let Some(inlet) = ins.pop() {
        let source = ins.len();
        let Some(room) = rooms.pop() else {
            unreachable!()
        };
        let frames = drain(rt, &mut outs[source][reader], inlet, room);
        port.adopt(source as u32, frames);
    }
}

/// Takes all that is inside the lanes to all peers.
pub(crate) fn receive_all<R: Wait>(
    rt: &R,
    outs: &mut [Vec<Outlet>],
    mut ins: Vec<Vec<Inlet>>,
    mut rooms: Vec<Vec<Vec<Frame>>>,
    ports: &mut [PlainPort],
)
    requires { ReceivesAll outs.old ins.items rooms.items ports.old }
    ensures { ReceivedAll outs.old ins.items ports.old ports.new }
{
    while let Some(own) = ins.pop() {
        let reader = ins.len();
        let Some(own_rooms) = rooms.pop() else {
            unreachable!()
        };
        receive(rt, outs, own, own_rooms, &mut ports[reader]);
    }
}
