//! The sizes that are granted.
ghost use Rattle.std.specs.Prelude.{◌≡◌};
ghost use Rattle.fab_model.specs.Negotiation.{wish, wish_is_refused, size_of};

use fab_base::{Api, Size};

/// A wish of 0 counts as none.
fn wish(wanted: Option<u32>) -> Option<u32>
    ensures { result ≡ wish wanted }
{
    match wanted {
        Some(0) | None => None,
        Some(n) => Some(n),
    }
}

/// Whether the wish is outside the limits of the size.
pub(crate) fn is_refused(api: Api, size: Size, wanted: Option<u32>) -> bool
    ensures { result ≡ wish_is_refused api size wanted }
{
    let limits = size.limits(api);
    match wish(wanted) {
        Some(n) => n < limits.least || limits.greatest < n,
        None => false,
    }
}

/// The size as asked for, and its default without a wish.
pub(crate) fn granted(api: Api, size: Size, wanted: Option<u32>) -> u32
    ensures { result ≡ size_of api size wanted }
{
    wish(wanted).unwrap_or(size.limits(api).default)
}
