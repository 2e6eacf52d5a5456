//! The messages that are claimed, in the order claimed: pairs of an id and a context.
ghost use Rattle.std.specs.Prelude.{◌≡◌, ◌==◌, IfNone, position, vec_capacity};
ghost use Rattle.fab_model.specs.Matching.{remove_first};
ghost use Rattle.fab_match.specs.Matcher.{first_id};

fn place_of(claims: &[(u32, u64)], ctx: u64) -> Option<usize>
    ensures { result ≡ position (λ claim. claim.1 == ctx) claims.now }
{
    claims.iter().position(|claim| claim.1 == ctx)
}

/// The id of the message that is claimed under a context.
pub fn claimed_id(claims: &[(u32, u64)], ctx: u64) -> Option<u32>
    ensures { result ≡ first_id (λ other. other == ctx) claims.now }
{
    let Some(place) = place_of(claims, ctx) else {
        return None;
    };
    Some(claims[place].0)
}

/// Takes the claim of a context out, and answers its id. The others keep their order. `None`, and
/// nothing changes, exactly where nothing is claimed under it.
pub fn give_up(claims: &mut Vec<(u32, u64)>, ctx: u64) -> Option<u32>
    ensures id { result ≡ first_id (λ other. other == ctx) claims.old.items }
    ensures rest { claims.new.items ≡ remove_first (λ claim. claim.1 == ctx) claims.old.items }
    ensures none { IfNone result (claims.new ≡ claims.old) }
    ensures capacity { vec_capacity claims.new ≡ vec_capacity claims.old }
{
    let Some(place) = place_of(claims, ctx) else {
        return None;
    };
    let (id, _) = claims.remove(place);
    Some(id)
}
