//! Who sent what is whole.
use fab_base::Step;
use fab_chart::{Event, sent_at};

/// Two messages of peer 1 to peer 0, whole in turn, and one of peer 0 to itself between them.
const EVENTS: [Event; 6] = [
    Event {
        peer: 1,
        step: Step::Sent(0),
    },
    Event {
        peer: 0,
        step: Step::Sent(0),
    },
    Event {
        peer: 1,
        step: Step::Sent(0),
    },
    Event {
        peer: 0,
        step: Step::Tail(1),
    },
    Event {
        peer: 0,
        step: Step::Tail(0),
    },
    Event {
        peer: 0,
        step: Step::Tail(1),
    },
];

#[test]
fn each_arrow_begins_where_its_message_was_transmitted(rt: HostRuntime) {
    let first = sent_at(&EVENTS, 3, 1, 0) == Some(0);
    let own = sent_at(&EVENTS, 4, 0, 0) == Some(1);
    let second = sent_at(&EVENTS, 5, 1, 0) == Some(2);
    let none = sent_at(&EVENTS, 6, 1, 0).is_none();
    assert!(rt; first && own && second && none);
}
