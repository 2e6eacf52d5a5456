//! The names of peers: `shm://K`, where K is the number in decimal.
ghost use Rattle.std.specs.Prelude.{◌≡◌, ◌≢◌, ℕ, ◌<◌, ◌^◌, ◌↔◌, MatchOption, IfSome, IsTrue, decimal, length, slice_index};
ghost use Rattle.fab_model.specs.Calls.{peer_named};

/// Whether these begin with a digit other than zero, or are a zero alone.
fn is_led(digits: &[u8]) -> bool
    ensures { IsTrue result ↔ ((0 < length digits.now) × (slice_index digits.now 0 ≡ 48 → length digits.now ≡ 1)) }
{
    !digits.is_empty() && (digits[0] != b'0' || digits.len() == 1)
}

/// The number that is written so in decimal, without a sign or a leading zero.
fn number(digits: &[u8]) -> Option<u32>
    ensures { MatchOption result ((n : ℕ) → n < 2 ^ 32 → decimal n ≢ digits.now) (λ n. decimal n ≡ digits.now) }
{
    if !is_led(digits) {
        return None;
    }
    let mut value: u32 = 0;
    for byte in digits {
        if !byte.is_ascii_digit() {
            return None;
        }
        value = value.checked_mul(10)?.checked_add(u32::from(*byte - b'0'))?;
    }
    Some(value)
}

/// The peer, of so many, that has this name.
pub(crate) fn peer_named(peers: u32, name: &str) -> Option<u32>
    ensures named { result ≡ peer_named peers name.now }
    ensures below { IfSome result (λ peer. peer < peers) }
{
    let digits = name.as_bytes().strip_prefix(b"shm://")?;
    let peer = number(digits)?;
    (peer < peers).then_some(peer)
}
