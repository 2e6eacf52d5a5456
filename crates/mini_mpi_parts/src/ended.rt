//! Operations that ended and are not yet waited for, in the order in which they ended.
ghost use Rattle.std.specs.Prelude.{◌≡◌, ◌==◌, ℕ, Contains, None, Some, IfNone, IfSome, get_or, position, remove};

/// How the operation of a request ended.
#[derive(Drop)]
pub struct Ended<T> {
    /// The number of its request.
    pub id: u64,
    pub end: T,
}

/// Where the first end of this request stands.
fn place_of<T>(ended: &[Ended<T>], id: u64) -> Option<usize>
    ensures { result ≡ position (λ one. one.id == id) ended.now }
{
    ended.iter().position(|one| one.id == id)
}

/// Takes out how the request ended, if it did. No other request's end is given for it, and none is lost.
pub fn take_ended<T>(ended: &mut Vec<Ended<T>>, id: u64) -> Option<Ended<T>>
    ensures own { IfSome result (λ one. one.id ≡ id) }
    ensures first { IfSome result (λ one. (at : ℕ) × (position (λ other. other.id == id) ended.old.items ≡ Some at) × (one ≡ get_or ended.old.items at one) × (ended.new.items ≡ remove ended.old.items at)) }
    ensures missing { IfNone result (position (λ one. one.id == id) ended.old.items ≡ None) }
    ensures none { IfNone result (ended.new ≡ ended.old) }
{
    let Some(at) = place_of(ended.as_slice(), id) else {
        return None;
    };
    Some(ended.remove(at))
}
