//! Lists by peer, and numbers that stay within 64 bits.
ghost use Rattle.std.specs.Prelude.{◌≡◌, ◌+◌, take, drop, IfOk, OnOk, slice_index};
ghost use Rattle.fab_model.specs.State.{raise};

use fab_base::NoMemory;

/// The number after this one. There is none where it would pass 64 bits, which is want of memory.
pub fn one_more(number: u64) -> Result<u64, NoMemory>
    ensures { IfOk result (λ more. more ≡ number + 1) }
{
    match number.checked_add(1) {
        Some(more) => Ok(more),
        None => Err(NoMemory),
    }
}

/// The number as one of 32 bits, or want of memory where it does not fit.
pub fn narrowed(number: usize) -> Result<u32, NoMemory>
    ensures { IfOk result (λ narrow. narrow ≡ number) }
{
    match u32::try_from(number) {
        Ok(narrow) => Ok(narrow),
        Err(_) => Err(NoMemory),
    }
}

/// The number at this place, or 0 where there is none.
pub fn number_at(numbers: &[u64], at: usize) -> u64
    ensures { result ≡ slice_index numbers.now at }
{
    match numbers.get(at) {
        Some(number) => *number,
        None => 0,
    }
}

/// The number at this place is one more, where there is one.
pub fn raise(numbers: &mut Vec<u64>, at: usize) -> Result<(), NoMemory>
    ensures { OnOk result (numbers.new.items ≡ raise numbers.old.items at) }
{
    if at < numbers.len() {
        numbers[at] = one_more(numbers[at])?;
    }
    Ok(())
}

/// At most the first `n` members, and the others.
pub fn split<T>(members: &[T], n: usize) -> (&[T], &[T])
    ensures first { result.0.now ≡ take n members.now }
    ensures rest { result.1.now ≡ drop n members.now }
{
    members.split_at(n.min(members.len()))
}
