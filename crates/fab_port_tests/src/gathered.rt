//! Plain ports that were gathered.
ghost use Rattle.std.specs.Prelude.{◌≡◌, length, IfOk};
ghost use Rattle.fab_port_tests.specs.Pairs.{AreBoth};

use fab_base::NoMemory;
use fab_link::PlainPort;

/// The plain ports of two peers, in order.
pub(crate) fn both(mut ports: Vec<PlainPort>) -> Result<(PlainPort, PlainPort), NoMemory>
    requires { length ports.items ≡ 2 }
    ensures { IfOk result (λ r. AreBoth ports.items r.0 r.1) }
{
    let Some(one) = ports.pop() else {
        return Err(NoMemory);
    };
    let Some(zero) = ports.pop() else {
        return Err(NoMemory);
    };
    Ok((zero, one))
}
