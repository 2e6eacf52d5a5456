//! Calls of a store of any kind, with their answers.
use fab_base::{Sign, Want};
use fab_match::{Matcher, take_posted, take_unexpected};

/// What is called.
#[derive(Clone, Copy, Drop)]
pub(crate) enum Call {
    Post(u32, Want),
    Arrive(u32, Sign),
    FirstPosted(Sign),
    FirstUnexpected(Want),
    RemovePosted(u32),
    RemoveUnexpected(u32),
    TakePosted(Sign),
    TakeUnexpected(Want),
}

/// What it answers. A receive or a message that may not be added is not, and the answer is `No`.
#[derive(Clone, Copy, Drop, Eq, PartialEq)]
pub(crate) enum Answer {
    Yes,
    No,
    Id(u32),
    Nothing,
}

/// A call and its answer.
pub(crate) type Step = (Call, Answer);

impl From<bool> for Answer {
    fn from(done: bool) -> Answer {
        if done { Answer::Yes } else { Answer::No }
    }
}

impl From<Option<u32>> for Answer {
    fn from(id: Option<u32>) -> Answer {
        match id {
            Some(id) => Answer::Id(id),
            None => Answer::Nothing,
        }
    }
}

pub(crate) fn post<M: Matcher>(store: &mut M, id: u32, want: Want) -> bool {
    if store.is_full() || store.has_posted(id) {
        return false;
    }
    store.add_posted(id, want);
    true
}

/// Whether a message is added. None where there is no memory.
fn arrive<M: Matcher>(store: &mut M, id: u32, sign: Sign) -> Option<bool> {
    if store.has_unexpected(id) {
        return Some(false);
    }
    match store.add_unexpected(id, sign) {
        Ok(()) => Some(true),
        Err(_) => None,
    }
}

/// The answer to a call. None where there is no memory.
pub(crate) fn apply<M: Matcher>(store: &mut M, call: &Call) -> Option<Answer> {
    Some(match call {
        Call::Post(id, want) => post(store, *id, *want).into(),
        Call::Arrive(id, sign) => return arrive(store, *id, *sign).map(Answer::from),
        Call::FirstPosted(sign) => store.first_posted(sign).into(),
        Call::FirstUnexpected(want) => store.first_unexpected(want).into(),
        Call::RemovePosted(id) => store.remove_posted(*id).into(),
        Call::RemoveUnexpected(id) => store.remove_unexpected(*id).into(),
        Call::TakePosted(sign) => take_posted(store, sign).into(),
        Call::TakeUnexpected(want) => take_unexpected(store, want).into(),
    })
}

/// Whether each call of the list gives its answer.
pub(crate) fn gives_all<M: Matcher>(store: &mut M, steps: &[Step]) -> bool {
    for (call, answer) in steps {
        if apply(store, call) != Some(*answer) {
            return false;
        }
    }
    true
}
