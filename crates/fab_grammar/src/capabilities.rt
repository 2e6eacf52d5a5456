//! The capabilities that `caps` asks for.
ghost use Rattle.std.specs.Prelude.{◌≡◌};
ghost use Rattle.fab_model.specs.Negotiation.{no_hints};
ghost use Rattle.fab_grammar.specs.Capabilities.{cap_name, cap_named, caps_of};

use fab_base::{CAPS, Cap, Caps};
use fab_words::{Misread, Read, first_part, is};

/// The capability as it is written (fi_getinfo(3)).
pub fn cap_name(cap: Cap) -> &'static str
    ensures { result.now ≡ cap_name cap }
{
    match cap {
        Cap::Msg => "FI_MSG",
        Cap::Tagged => "FI_TAGGED",
        Cap::Rma => "FI_RMA",
        Cap::Atomic => "FI_ATOMIC",
        Cap::DirectedRecv => "FI_DIRECTED_RECV",
        Cap::Send => "FI_SEND",
        Cap::Recv => "FI_RECV",
        Cap::Read => "FI_READ",
        Cap::Write => "FI_WRITE",
        Cap::RemoteRead => "FI_REMOTE_READ",
        Cap::RemoteWrite => "FI_REMOTE_WRITE",
        Cap::MultiRecv => "FI_MULTI_RECV",
        Cap::Source => "FI_SOURCE",
        Cap::RmaEvent => "FI_RMA_EVENT",
        Cap::Fence => "FI_FENCE",
        Cap::LocalComm => "FI_LOCAL_COMM",
    }
}

/// The capability of this name.
#[tactic(auto, unfolding(crate::specs::Capabilities::cap_named))]
fn named(word: &[u8]) -> Option<Cap>
    ensures { result ≡ cap_named word.now }
{
    CAPS.iter().copied().find(|cap| is(word, cap_name(*cap)))
}

/// The capabilities whose names the commas join. `Words` where one of these is no name.
#[tactic(auto, unfolding(crate::specs::Capabilities::caps_of))]
pub fn read_caps(word: &[u8]) -> Read<Caps>
    ensures { result ≡ caps_of word.now }
{
    let mut caps = no_caps();
    let mut list = word;
    loop {
        let (name, rest) = first_part(list, b',');
        caps = caps.with(named(name).ok_or(Misread::Words)?);
        match rest {
            Some(rest) => list = rest,
            None => return Ok(caps),
        }
    }
}

/// No capability.
pub fn no_caps() -> Caps
    ensures { result ≡ no_hints.caps }
{
    Caps::none()
}
