//! Which messages a receive may take (fi_tagged(3)), and the first of a list.
ghost use Rattle.std.specs.Prelude.{◌≡◌, find, position, IfNone};
ghost use Rattle.std.specs.Option.{option_map};
ghost use Rattle.std.specs.List.{list_any};
ghost use Rattle.fab_model.specs.Matching.{matches, takes, remove_first};

use fab_base::{Arrival, ItemHead, Kind, Want};

/// Whether a receive that wants this may take a message of `source` with this head: both tagged or both
/// untagged, from the source where one is named, and of the same tag in every bit where `ignore` is 0.
pub fn matches(want: &Want, source: u32, head: &ItemHead) -> bool
    ensures { result ≡ matches want.now source head.now }
{
    let from = match want.source {
        None => true,
        Some(wanted) => wanted == source,
    };
    match head.kind {
        Kind::Msg => !want.tagged && from,
        Kind::TagMsg => {
            want.tagged && from && (want.tag | want.ignore) == (head.tag | want.ignore)
        }
        Kind::WriteReq | Kind::ReadReq | Kind::AtomicReq | Kind::Reply => false,
    }
}

/// Whether the receive may take this arrival.
pub fn takes(want: &Want, arrival: &Arrival) -> bool
    ensures { result ≡ takes want.now arrival.now }
{
    matches(want, arrival.source, &arrival.head)
}

/// The first arrival that the want takes.
pub fn first_taken<'a>(unexpected: &'a [Arrival], want: &Want) -> Option<&'a Arrival>
    ensures { option_map (λ a. a.now) result ≡ find (takes want.now) unexpected.now }
{
    unexpected.iter().find(|a| takes(want, a))
}

/// Whether the want takes one of these arrivals.
pub fn takes_any(unexpected: &[Arrival], want: &Want) -> bool
    ensures { result ≡ list_any (takes want.now) unexpected.now }
{
    unexpected.iter().any(|a| takes(want, a))
}

/// Where the first arrival stands that the want takes.
pub fn place_of_taken(unexpected: &[Arrival], want: &Want) -> Option<usize>
    ensures { result ≡ position (takes want.now) unexpected.now }
{
    unexpected.iter().position(|a| takes(want, a))
}

/// Takes the first arrival that the want takes out of the list.
pub fn take_arrival(unexpected: &mut Vec<Arrival>, want: &Want) -> Option<Arrival>
    ensures found { result ≡ find (takes want.now) unexpected.old.items }
    ensures rest { unexpected.new.items ≡ remove_first (takes want.now) unexpected.old.items }
    ensures none { IfNone result (unexpected.new.items ≡ unexpected.old.items) }
{
    let Some(at) = place_of_taken(unexpected.as_slice(), want) else {
        return None;
    };
    Some(unexpected.remove(at))
}
