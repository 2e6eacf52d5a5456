//! The text of a script.
//!
//! Each function that appends to a text may, after want of memory, have appended a part.
ghost use Rattle.std.specs.Prelude.{◌≡◌, ◌++◌, ◌∷◌, [], ℕ, List, map, Ok, IfOk, OnOk, string_bytes};
ghost use Rattle.fab_base.specs.declared.limits.Size.TheVariants as size;
ghost use Rattle.fab_model.specs.Negotiation.{has_any};
ghost use Rattle.fab_model.specs.Words.{line_of};
ghost use Rattle.fab_grammar.specs.declared.items.Item.{Item};
ghost use Rattle.fab_grammar.specs.declared.items.Item.TheVariants as item;
ghost use Rattle.fab_grammar.specs.declared.settings.Setting.TheVariants as setting;
ghost use Rattle.fab_grammar.specs.Grammar.{verdict};
ghost use Rattle.fab_spell.specs.Print.{IsSame, asked, header_row, hints_for, items_of, items_text, part_items, printed, selected, settings_for, settings_text, sizes, wished};

use crate::lines::add_line;
use crate::settings::{add_caps_line, add_payload, add_peers, add_selective, add_size};
use fab_base::{CAPS, Cap, Caps, Conf, Hints, Line, NoMemory, Payload, Script, Size, Text};
use std::alloc::Global;

/// The text of a script. Of a script that a text gave it gives a text that gives the same script, up to the numbers
/// of its lines.
pub fn print(alloc: Global, script: &Script) -> Result<Text, NoMemory>
    ensures printed { IfOk result (λ text. text ≡ printed script.now) }
    ensures again { (bytes : List ℕ) → verdict bytes ≡ Ok script.now → IfOk result (λ text. IsSame script.now (verdict text)) }
{
    let mut out = String::new(alloc);
    add_script(&mut out, script)?;
    Text::copy(alloc, &out)
}

fn add_script(out: &mut String, script: &Script) -> Result<(), NoMemory>
    ensures { OnOk result (string_bytes out.new ≡ string_bytes out.old ++ printed script.now) }
{
    add_header(out, script.version)?;
    add_conf(out, &script.conf)?;
    add_payloads(out, script.payloads.as_slice())?;
    add_parts(out, script.peers.as_slice())
}

/// The version of the language.
fn add_header(out: &mut String, version: u32) -> Result<(), NoMemory>
    ensures { OnOk result (string_bytes out.new ≡ string_bytes out.old ++ line_of (header_row version)) }
{
    writeln!(out, "fabric {version}")?;
    Ok(())
}

/// The settings that ask for what the script asks for.
fn add_conf(out: &mut String, conf: &Conf) -> Result<(), NoMemory>
    ensures { OnOk result (string_bytes out.new ≡ string_bytes out.old ++ settings_text (settings_for (hints_for conf.now) conf.now [])) }
{
    match &conf.hints {
        None => add_peers(out, conf.peers)?,
        Some(hints) => {
            add_asked(out, hints.caps)?;
            add_peers(out, conf.peers)?;
            add_sizes(out, hints)?;
        }
    }
    add_selected(out, conf.selective)
}

/// The capabilities, where some are asked for.
fn add_asked(out: &mut String, caps: Caps) -> Result<(), NoMemory>
    ensures { OnOk result (string_bytes out.new ≡ string_bytes out.old ++ settings_text (asked caps)) }
{
    if has_any(&caps, &CAPS) {
        add_caps_line(out, caps)?;
    }
    Ok(())
}

/// Whether the set has one of these.
fn has_any(asked: &Caps, caps: &[Cap]) -> bool
    ensures { result ≡ has_any asked.now caps.now }
{
    caps.iter().any(|cap| asked.has(*cap))
}

/// The sizes that are wished for.
fn add_sizes(out: &mut String, hints: &Hints) -> Result<(), NoMemory>
    ensures { OnOk result (string_bytes out.new ≡ string_bytes out.old ++ settings_text (sizes hints.now)) }
{
    add_wish(out, Size::Lane, hints.lane)?;
    add_wish(out, Size::Pool, hints.pool)?;
    add_wish(out, Size::Tx, hints.tx)?;
    add_wish(out, Size::Rx, hints.rx)?;
    add_wish(out, Size::Cq, hints.cq)
}

fn add_wish(out: &mut String, size: Size, wish: Option<u32>) -> Result<(), NoMemory>
    ensures { OnOk result (string_bytes out.new ≡ string_bytes out.old ++ settings_text (wished size wish)) }
{
    match wish {
        None => Ok(()),
        Some(n) => add_size(out, size, n),
    }
}

fn add_selected(out: &mut String, selective: bool) -> Result<(), NoMemory>
    ensures { OnOk result (string_bytes out.new ≡ string_bytes out.old ++ settings_text (selected selective)) }
{
    if selective {
        add_selective(out)?;
    }
    Ok(())
}

fn add_payloads(out: &mut String, payloads: &[Payload]) -> Result<(), NoMemory>
    ensures { OnOk result (string_bytes out.new ≡ string_bytes out.old ++ settings_text (map setting.File payloads.now)) }
{
    for payload in payloads {
        add_payload(out, payload)?;
    }
    Ok(())
}

/// The parts of the peers, in the order of their numbers.
fn add_parts(out: &mut String, parts: &[fab_base::List<Line>]) -> Result<(), NoMemory>
    ensures { OnOk result (string_bytes out.new ≡ string_bytes out.old ++ items_text (items_of 0 parts.now)) }
{
    for (number, part) in parts.iter().enumerate() {
        add_part(out, number, part.as_slice())?;
    }
    Ok(())
}

/// `peer K` and the lines of this peer, where it has some.
fn add_part(out: &mut String, number: usize, lines: &[Line]) -> Result<(), NoMemory>
    ensures { OnOk result (string_bytes out.new ≡ string_bytes out.old ++ items_text (part_items number lines.now)) }
{
    if lines.is_empty() {
        return Ok(());
    }
    writeln!(out, "peer {number}")?;
    add_lines(out, lines)
}

fn add_lines(out: &mut String, lines: &[Line]) -> Result<(), NoMemory>
    ensures { OnOk result (string_bytes out.new ≡ string_bytes out.old ++ items_text (map item.Does lines.now)) }
{
    for line in lines {
        add_line(out, &line.op)?;
    }
    Ok(())
}
