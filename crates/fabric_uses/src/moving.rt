//! Progress, and whose turn it is.
ghost use Rattle.fabric_uses.specs.Uses.{MovesTwice};

use fabric::{Calls, EndpointOver, Next, NoMemory, law_turns};

/// Makes progress twice, of so many frames at most each time. Where both together move as many frames as there are lanes, each
/// lane has a turn in one of them.
pub fn move_twice<E: Calls + Drop>(
    endpoint: &mut EndpointOver<E>,
    budget: u32,
) -> (Result<Next, NoMemory>, Result<Next, NoMemory>)
    ensures { MovesTwice E.fixed budget (E.seen endpoint.old) (E.seen endpoint.new) result.0 result.1 }
{
    law_turns::<E>();
    let first = endpoint.progress(budget);
    let second = endpoint.progress(budget);
    (first, second)
}
