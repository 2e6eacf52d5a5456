//! How a rank and a tag of MPI are told to the endpoint.
//!
//! ```text
//! bit of the tag      63           62 .. 32      31 .. 0
//!                     collective   0             the tag, at most TAG_UB
//! ```
//!
//! A source is named by the receive itself (FI_DIRECTED_RECV), so a tag carries none. `ANY_TAG` ignores the lower 32 bits
//! alone, and so takes no message of a collective.
ghost use Rattle.std.specs.Prelude.{◌≡◌, ◌<◌, ◌-◌, ◌%◌, ◌^◌, IfNone, IfSome};
ghost use Rattle.mini_mpi_parts.specs.Tags.{wanted, wrong_tag, wrong_with};

/// Messages of any rank (MPI_ANY_SOURCE).
pub const ANY_SOURCE: Option<u32> = None;

/// Messages of any tag (MPI_ANY_TAG).
pub const ANY_TAG: Option<u32> = None;

/// The greatest tag (MPI_TAG_UB).
pub const TAG_UB: u32 = 0x7fff_ffff;

/// The bits that a tag of MPI may have.
const TAG_BITS: u64 = 0xffff_ffff;

/// What is wrong with a rank or a tag.
#[derive(Clone, Copy, Drop)]
pub enum Wrong {
    /// There is no such rank (MPI_ERR_RANK).
    Rank,
    /// The tag is above `TAG_UB` (MPI_ERR_TAG).
    Tag,
}

/// The tag that a receive compares, and the bits that it ignores.
pub fn wanted(tag: Option<u32>) -> (u64, u64)
    ensures wanted { result ≡ wanted tag }
    ensures tag { result.0 < 2 ^ 32 }
    ensures ignore { result.1 < 2 ^ 32 }
    ensures named { IfSome tag (λ t. (result.0 ≡ t) × (result.1 ≡ 0)) }
    ensures any { IfNone tag ((result.0 ≡ 0) × (result.1 ≡ 2 ^ 32 - 1)) }
{
    match tag {
        Some(tag) => (u64::from(tag), 0),
        None => (0, TAG_BITS),
    }
}

/// The tag that a message brought.
pub fn tag_of(bits: u64) -> u32
    ensures lower { result ≡ bits % 2 ^ 32 }
    ensures named { bits < 2 ^ 32 → result ≡ bits }
{
    (bits & TAG_BITS) as u32
}

/// What is wrong with a tag, if anything is.
fn wrong_tag(tag: Option<u32>) -> Option<Wrong>
    ensures { result ≡ wrong_tag tag }
{
    match tag {
        Some(tag) if tag > TAG_UB => Some(Wrong::Tag),
        _ => None,
    }
}

/// What is wrong with a rank or a tag among so many ranks, if anything is.
pub fn wrong_with(size: u32, rank: Option<u32>, tag: Option<u32>) -> Option<Wrong>
    ensures { result ≡ wrong_with size rank tag }
{
    match rank {
        Some(rank) if rank >= size => Some(Wrong::Rank),
        _ => wrong_tag(tag),
    }
}
