//! The bins in which receives and messages are filed.
ghost use Rattle.std.specs.Prelude.{◌≡◌, ◌<◌};
ghost use Rattle.fab_match.specs.Bins.{bin, exact_bin, open_bin, masked_bin, filing_of, bin_of, is_loose, AreWithin};

use fab_base::Want;

/// Where the messages stand that a receive may take: in a bin of a kind, tag and source, in one of a
/// kind and tag, or anywhere.
#[derive(Clone, Copy, Drop)]
pub enum Filing {
    Exact(u32),
    Open(u32),
    Masked,
}

/// The bin of a key of three numbers, one of so many.
#[tactic(auto, unfolding(crate::specs::Bins::bin))]
pub fn bin(heads: u32, class: u64, tag: u64, source: u32) -> u32
    requires { 0 < heads }
    ensures exact { result ≡ bin heads class tag source }
    ensures within { result < heads }
{
    let tags = tag.wrapping_mul(0x9e37_79b9_7f4a_7c15);
    let sources = u64::from(source).wrapping_mul(0xc2b2_ae3d_27d4_eb4f);
    let classes = class.wrapping_mul(0x1656_67b1_9e37_79f9);
    let mixed = tags.wrapping_add(sources).wrapping_add(classes) >> 32;
    ((mixed * u64::from(heads)) >> 32) as u32
}

/// The bin of a kind, a tag, which only tagged messages have, and a source.
pub fn exact_bin(heads: u32, tagged: bool, tag: u64, source: u32) -> u32
    requires { 0 < heads }
    ensures exact { result ≡ exact_bin heads tagged tag source }
    ensures within { result < heads }
{
    if tagged {
        bin(heads, 1, tag, source)
    } else {
        bin(heads, 2, 0, source)
    }
}

/// The bin of a kind and a tag, from any source.
pub fn open_bin(heads: u32, tagged: bool, tag: u64) -> u32
    requires { 0 < heads }
    ensures exact { result ≡ open_bin heads tagged tag }
    ensures within { result < heads }
{
    if tagged {
        bin(heads, 3, tag, 0)
    } else {
        bin(heads, 4, 0, 0)
    }
}

/// The bin of receives whose tag is masked.
pub fn masked_bin(heads: u32) -> u32
    requires { 0 < heads }
    ensures exact { result ≡ masked_bin heads }
    ensures within { result < heads }
{
    bin(heads, 5, 0, 0)
}

/// Where the messages stand that a receive that wants this may take.
pub fn filing_of(heads: u32, want: &Want) -> Filing
    requires { 0 < heads }
    ensures exact { result ≡ filing_of heads want.now }
    ensures within { AreWithin heads result }
{
    if want.tagged && want.ignore != 0 {
        return Filing::Masked;
    }
    match want.source {
        Some(source) => Filing::Exact(exact_bin(heads, want.tagged, want.tag, source)),
        None => Filing::Open(open_bin(heads, want.tagged, want.tag)),
    }
}

/// The one bin in which a receive that wants this stands.
pub fn bin_of(heads: u32, want: &Want) -> u32
    requires { 0 < heads }
    ensures exact { result ≡ bin_of heads want.now }
    ensures within { result < heads }
{
    match filing_of(heads, want) {
        Filing::Exact(bin) | Filing::Open(bin) => bin,
        Filing::Masked => masked_bin(heads),
    }
}

/// Whether a receive masks its tag, or takes from any source: then it stands in no bin of a kind, tag
/// and source.
pub fn is_loose(want: &Want) -> bool
    ensures { result ≡ is_loose want.now }
{
    (want.tagged && want.ignore != 0) || want.source.is_none()
}
