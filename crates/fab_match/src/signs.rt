//! What a message shows to the receives that may take it, and which of them may (fi_tagged(3)).
ghost use Rattle.std.specs.Prelude.{◌≡◌, true};
ghost use Rattle.fab_base.specs.declared.items.Want.{Want};
ghost use Rattle.fab_model.specs.Matching.{matches};
ghost use Rattle.fab_base.specs.Kinds.{is_message};
ghost use Rattle.fab_match.specs.Signs.{fits, sign_of};

use fab_base::{ItemHead, Kind, Sign, Want};

/// The sign of a message that comes from `source`, whose head must be that of a message. A receive
/// may take the message exactly where it fits the sign.
pub fn sign_of(source: u32, head: &ItemHead) -> Sign
    requires { is_message head.now.kind ≡ true }
    ensures exact { result ≡ sign_of source head.now }
    ensures fits { (want : Want) → fits want result ≡ matches want source head.now }
{
    Sign {
        tagged: head.kind == Kind::TagMsg,
        tag: head.tag,
        source,
    }
}

/// Whether a receive that wants this may take a message with this sign: both tagged or both
/// untagged, from the source where one is named, and, if tagged, of the same tag in every bit where
/// `ignore` is 0 (fi_tagged(3), "fi_trecv").
pub fn fits(want: &Want, sign: &Sign) -> bool
    ensures { result ≡ fits want.now sign.now }
{
    let from = match want.source {
        None => true,
        Some(wanted) => wanted == sign.source,
    };
    let same_tag = (want.tag | want.ignore) == (sign.tag | want.ignore);
    want.tagged == sign.tagged && from && (!want.tagged || same_tag)
}
