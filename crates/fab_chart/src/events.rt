//! What happened, in order, and where the lines stand that tell it.
use fab_base::{List, NoMemory, Step, Text};
use std::alloc::Global;

/// A step, and the peer that took it.
#[derive(Clone, Copy, Drop, Eq, PartialEq)]
pub struct Event {
    pub peer: u32,
    pub step: Step,
}

/// How many of these are events of this peer.
fn taken_by(events: &[Event], peer: u32) -> usize {
    events.iter().filter(|e| e.peer == peer).count()
}

/// How many of the first so many events are this one.
pub(crate) fn times_before(events: &[Event], row: usize, event: Event) -> usize {
    let before = &events[..row.min(events.len())];
    before.iter().filter(|e| **e == event).count()
}

/// The step that this peer takes behind these events.
fn next_step(events: &[Event], schedule: &[List<Step>], peer: u32) -> Option<Step> {
    let steps = schedule.get(peer as usize)?;
    steps.as_slice().get(taken_by(events, peer)).copied()
}

/// The steps of a schedule, where these peers take the turns.
pub fn events_of(
    alloc: Global,
    order: &[u32],
    schedule: &[List<Step>],
) -> Result<Vec<Event>, NoMemory> {
    let mut events = Vec::new(alloc);
    for peer in order {
        if let Some(step) = next_step(&events, schedule, *peer) {
            events.push(Event { peer: *peer, step })?;
        }
    }
    Ok(events)
}

/// Where the item was transmitted that is whole at this event of the peer, which comes from `source`: as many
/// of the source's items for the peer were whole before as were transmitted.
pub fn sent_at(events: &[Event], row: usize, source: u32, peer: u32) -> Option<usize> {
    let whole = Event {
        peer,
        step: Step::Tail(source),
    };
    let sent = Event {
        peer: source,
        step: Step::Sent(peer),
    };
    let mut earlier = times_before(events, row, whole);
    for (at, event) in events.iter().enumerate() {
        if *event == sent {
            if earlier == 0 {
                return Some(at);
            }
            earlier -= 1;
        }
    }
    None
}

/// The lines of a report that tell what a peer's lines did, for each peer: those that begin with a number.
pub fn lines_of(alloc: Global, report: &str) -> Result<Vec<List<Text>>, NoMemory> {
    let mut all = Vec::new(alloc);
    let mut lines = Vec::new(alloc);
    let mut within = false;
    for line in report.lines() {
        if line.starts_with("peer ") {
            if within {
                all.push(List::from_vec(lines))?;
                lines = Vec::new(alloc);
            }
            within = true;
        } else if line.starts_with(|c: char| c.is_ascii_digit()) {
            lines.push(Text::copy(alloc, line)?)?;
        }
    }
    all.push(List::from_vec(lines))?;
    Ok(all)
}
