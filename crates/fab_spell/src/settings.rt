//! How a setting is written, one line each.
//!
//! Each function appends to a text. After want of memory the text may have gained a part of what was to be
//! appended.
ghost use Rattle.std.specs.Prelude.{◌≡◌, ◌++◌, ◌∷◌, [], OnOk, decimal, string_bytes};
ghost use Rattle.fab_model.specs.Words.{line_of};
ghost use Rattle.fab_grammar.specs.declared.settings.Setting.{Setting};
ghost use Rattle.fab_grammar.specs.Verbs.{name_of};
ghost use Rattle.fab_spell.specs.Headings.{caps_word, size_verb, setting_row};

use fab_base::{CAPS, Caps, NoMemory, Payload, Size};
use fab_grammar::{Verb, cap_name};

/// How many peers there are.
pub fn add_peers(out: &mut String, peers: u32) -> Result<(), NoMemory>
    ensures { OnOk result (string_bytes out.new ≡ string_bytes out.old ++ line_of (setting_row (Setting.Peers peers))) }
{
    add_number(out, Verb::Peers, peers)
}

/// The value of another size.
pub fn add_size(out: &mut String, size: Size, value: u32) -> Result<(), NoMemory>
    ensures { OnOk result (string_bytes out.new ≡ string_bytes out.old ++ line_of (setting_row (Setting.Wish size value))) }
{
    add_number(out, size_verb(size), value)
}

/// A verb and a number.
fn add_number(out: &mut String, verb: Verb, number: u32) -> Result<(), NoMemory>
    ensures { OnOk result (string_bytes out.new ≡ string_bytes out.old ++ line_of (name_of verb ∷ decimal number ∷ [])) }
{
    writeln!(out, "{} {number}", verb.name())?;
    Ok(())
}

/// The verb that wishes for a size; there is none for those that no script wishes for.
fn size_verb(size: Size) -> Verb
    ensures { result ≡ size_verb size }
{
    match size {
        Size::Lane => Verb::Lane,
        Size::Pool => Verb::Pool,
        Size::Tx => Verb::Tx,
        Size::Rx => Verb::Rx,
        Size::Cq => Verb::Cq,
        Size::Peers | Size::Log | Size::Inject | Size::Message => Verb::Peers,
    }
}

/// The capabilities that are asked for.
pub fn add_caps_line(out: &mut String, caps: Caps) -> Result<(), NoMemory>
    ensures { OnOk result (string_bytes out.new ≡ string_bytes out.old ++ line_of (setting_row (Setting.Capabilities caps))) }
{
    out.push_str("caps ")?;
    add_caps(out, caps)?;
    out.push('\n')?;
    Ok(())
}

/// The names of capabilities, joined by commas.
fn add_caps(out: &mut String, caps: Caps) -> Result<(), NoMemory>
    ensures { OnOk result (string_bytes out.new ≡ string_bytes out.old ++ caps_word caps) }
{
    let mut separator = "";
    for cap in &CAPS {
        if caps.has(*cap) {
            out.push_str(separator)?;
            out.push_str(cap_name(*cap))?;
            separator = ",";
        }
    }
    Ok(())
}

/// Endpoints are opened with selective completion.
pub fn add_selective(out: &mut String) -> Result<(), NoMemory>
    ensures { OnOk result (string_bytes out.new ≡ string_bytes out.old ++ line_of (setting_row Setting.Selective)) }
{
    out.push_str("selective\n")?;
    Ok(())
}

/// A payload file.
pub fn add_payload(out: &mut String, payload: &Payload) -> Result<(), NoMemory>
    ensures { OnOk result (string_bytes out.new ≡ string_bytes out.old ++ line_of (setting_row (Setting.File payload.now))) }
{
    writeln!(out, "payload {} {}", payload.id, payload.name.as_str())?;
    Ok(())
}
