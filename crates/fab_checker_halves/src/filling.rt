//! The buffers of multi-receives, which are filled and let go, and the items that join those accepted.
ghost use Rattle.std.specs.Prelude.{◌≡◌, OnOk, IfNone, find, position};
ghost use Rattle.fab_model.specs.Matching.{change_first, remove_first};
ghost use Rattle.fab_model.specs.Complete.{is_made_by, filled, filling, joining};
ghost use Rattle.fab_checker_halves.specs.Seen.{rx_of, tx_of};

use crate::halves::{Receiving, Transmitting};
use fab_base::{Item, NoMemory, Receive};
use fab_checker_values::entries::paste;

/// Where the first of these receives stands that this call made.
fn place_of_made(receives: &[Receive], call: u64) -> Option<usize>
    ensures { result ≡ position (is_made_by call) receives.now }
{
    receives.iter().position(|r| r.call == call)
}

/// Puts the bytes into the first of these receives that this call made.
fn fill_first(receives: &mut Vec<Receive>, call: u64, place: u32, bytes: &[u8])
    ensures { receives.new.items ≡ change_first (is_made_by call) (filled place bytes.now) receives.old.items }
{
    let Some(at) = place_of_made(receives.as_slice(), call) else {
        return;
    };
    paste(&mut receives[at].buf, place, bytes);
}

/// Takes the first of these receives that this call made.
pub fn take_made(receives: &mut Vec<Receive>, call: u64) -> Option<Receive>
    ensures found { result ≡ find (is_made_by call) receives.old.items }
    ensures rest { receives.new.items ≡ remove_first (is_made_by call) receives.old.items }
    ensures none { IfNone result (receives.new.items ≡ receives.old.items) }
{
    let Some(at) = place_of_made(receives.as_slice(), call) else {
        return None;
    };
    Some(receives.remove(at))
}

impl Receiving {
    /// Of a multi-receive the buffer itself is kept until it is released.
    pub fn fill(&mut self, receive: &Receive, place: u32, bytes: &[u8])
        ensures { rx_of self.new ≡ filling receive.now place bytes.now (rx_of self.old) }
    {
        if receive.least.is_some() {
            fill_first(&mut self.posted, receive.call, place, bytes);
            fill_first(&mut self.closing, receive.call, place, bytes);
        }
    }
}

impl Transmitting {
    /// An item joins those accepted for this peer.
    pub fn join(&mut self, to: u32, item: Item) -> Result<(), NoMemory>
        ensures { OnOk result (tx_of self.new ≡ joining to item (tx_of self.old)) }
    {
        if (to as usize) < self.accepted.len() {
            self.accepted[to as usize].push(item)?;
        }
        Ok(())
    }
}
