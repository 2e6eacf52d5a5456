//! Messages that ports are tried with.
use fab_port_suite::Message;

/// Three short messages: the first two fill a lane of two.
pub(crate) const SHORT: [Message; 3] = [
    Message { tag: 1, len: 1 },
    Message { tag: 2, len: 2 },
    Message { tag: 3, len: 3 },
];
