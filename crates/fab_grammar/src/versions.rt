//! The versions of the language, and their limits.
ghost use Rattle.std.specs.Prelude.{◌≡◌, ◌∷◌};
ghost use Rattle.fab_grammar.specs.Versions.{version_of, version_named, header_of, most_bytes, most_in_all};

use fab_base::{Api, SCRIPT_BYTES_ONE, SCRIPT_BYTES_TWO};
use fab_words::{Words, is};

/// The number of a version.
pub fn version_of(api: Api) -> u32
    ensures { result ≡ version_of api }
{
    match api {
        Api::One => 1,
        Api::Two => 2,
    }
}

/// The version of this number, as it is written.
#[tactic(auto, unfolding(crate::specs::Versions::version_named))]
fn version_named(word: &[u8]) -> Option<Api>
    ensures { result ≡ version_named word.now }
{
    if is(word, "1") {
        Some(Api::One)
    } else if is(word, "2") {
        Some(Api::Two)
    } else {
        None
    }
}

/// The version that the header names, of its first word and those after it. None where they are no header.
pub fn read_header(word: &[u8], args: &mut Words) -> Option<Api>
    ensures { result ≡ header_of (word.now ∷ args.old) }
{
    let version = args.one()?;
    if is(word, "fabric") {
        version_named(version)
    } else {
        None
    }
}

/// The most bytes that one line names, or makes room for.
pub fn most_bytes(api: Api) -> u32
    ensures { result ≡ most_bytes api }
{
    match api {
        Api::One => 33_554_432,
        Api::Two => 300_000_000,
    }
}

/// The most bytes that all lines together name, or make room for.
pub fn most_in_all(api: Api) -> u64
    ensures { result ≡ most_in_all api }
{
    match api {
        Api::One => SCRIPT_BYTES_ONE,
        Api::Two => SCRIPT_BYTES_TWO,
    }
}
