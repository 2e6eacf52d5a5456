//! What `info` writes: what is granted (fi_getinfo(3)), in the manner of fi_info(1).
//!
//! Each function that appends to a text may have appended a part after want of memory.
ghost use Rattle.std.specs.Prelude.{◌≡◌, ◌++◌, IfOk, OnOk, Some, string_bytes};
ghost use Rattle.fab_base.specs.Granted.{all_caps};
ghost use Rattle.fab_base.specs.declared.caps.Api.TheVariants.{Two};
ghost use Rattle.fab_grammar.specs.Settings.{asking};
ghost use Rattle.fab_model.specs.Negotiation.{grant};
ghost use Rattle.fab_model.specs.Words.{line_of, text_of, after_blanks};
ghost use Rattle.fab_outside.specs.Info.{bytes_line, cap_names, caps_line, info_lines, info_text, offer, sizes_line};

use fab_base::{Api, CAPS, Caps, FRAME_BYTES, INJECT_BYTES, INLINE_BYTES, Info, NoMemory};
use fab_grammar::{asking, cap_name};
use fab_info::getinfo;
use std::alloc::Global;

/// The names of these capabilities, each after a blank.
fn add_names(out: &mut String, caps: Caps) -> Result<(), NoMemory>
    ensures { OnOk result (string_bytes out.new ≡ string_bytes out.old ++ after_blanks (cap_names caps all_caps)) }
{
    for cap in &CAPS {
        if caps.has(*cap) {
            out.push(' ')?;
            out.push_str(cap_name(*cap))?;
        }
    }
    Ok(())
}

/// The capabilities.
fn add_caps(out: &mut String, caps: Caps) -> Result<(), NoMemory>
    ensures { OnOk result (string_bytes out.new ≡ string_bytes out.old ++ line_of (caps_line caps)) }
{
    out.push_str("caps")?;
    add_names(out, caps)?;
    out.push('\n')?;
    Ok(())
}

/// How many bytes a frame, a call and a message hold.
fn add_bytes(out: &mut String, info: &Info) -> Result<(), NoMemory>
    ensures { OnOk result (string_bytes out.new ≡ string_bytes out.old ++ line_of (bytes_line info.now)) }
{
    let Info {
        inject,
        message,
        ..
    } = *info;
    writeln!(
        out,
        "inline {INLINE_BYTES} piece {FRAME_BYTES} inject {inject} message {message} atomic {INJECT_BYTES}"
    )?;
    Ok(())
}

/// The sizes.
fn add_sizes(out: &mut String, info: &Info) -> Result<(), NoMemory>
    ensures { OnOk result (string_bytes out.new ≡ string_bytes out.old ++ line_of (sizes_line info.now)) }
{
    let Info {
        peers,
        lane,
        pool,
        tx,
        rx,
        cq,
        ..
    } = *info;
    writeln!(
        out,
        "peers {peers} lane {lane} pool {pool} tx {tx} rx {rx} cq {cq}"
    )?;
    Ok(())
}

/// What is granted, line by line.
fn add_info(out: &mut String, info: &Info) -> Result<(), NoMemory>
    ensures { OnOk result (string_bytes out.new ≡ string_bytes out.old ++ text_of (info_lines info.now)) }
{
    out.push_str("provider shm-threads\nendpoint FI_EP_RDM\n")?;
    add_caps(out, info.caps)?;
    out.push_str("order FI_ORDER_SAS\n")?;
    add_bytes(out, info)?;
    add_sizes(out, info)
}

/// What is granted to whoever asks for these capabilities, in the second version. It refuses none.
#[tactic(auto, using(crate::proofs::Offered::none_refused))]
fn offer(caps: Caps) -> Info
    ensures offer { result ≡ offer caps }
    ensures granted { grant Two (Some (asking caps)) ≡ Some result }
{
    let Ok(info) = getinfo(Api::Two, Some(&asking(caps))) else {
        unreachable!()
    };
    info
}

/// The text of what is granted to whoever asks for these capabilities, in the second version (fi_getinfo(3)).
pub fn info_text(alloc: Global, caps: Caps) -> Result<String, NoMemory>
    ensures text { IfOk result (λ text. string_bytes text ≡ info_text caps) }
    ensures granted { grant Two (Some (asking caps)) ≡ Some (offer caps) }
{
    let mut out = String::new(alloc);
    add_info(&mut out, &offer(caps))?;
    Ok(out)
}
