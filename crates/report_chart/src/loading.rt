//! The files of a script and its report.
ghost use Rattle.std.specs.Prelude.{◌≡◌, length, IfOk};

use crate::not_drawn::NotDrawn;
use fab_base::{Bound, Buf, Payload, Text};
use fab_script::{bind, parse};
use std::fs;
use std::rt::Files;

/// A whole file.
pub fn load<R: Files + AllocGlobal>(rt: &R, name: &Text) -> Result<Buf, NotDrawn> {
    match fs::read(rt, name.as_str()) {
        Ok(bytes) => Ok(Buf::from_vec(bytes)),
        Err(_) => Err(NotDrawn::Unread(Text::copy(rt.alloc(), name.as_str())?)),
    }
}

/// The files of these `payload` lines, in their order.
fn load_payloads<R: Files + AllocGlobal>(rt: &R, payloads: &[Payload]) -> Result<Vec<Buf>, NotDrawn>
    ensures { IfOk result (λ files. length files.items ≡ length payloads.now) }
{
    let mut files = Vec::new(rt.alloc());
    for payload in payloads {
        let file = load(rt, &payload.name)?;
        let Ok(()) = files.push(file) else {
            return Err(NotDrawn::NoMemory);
        };
    }
    Ok(files)
}

/// The script of this file, with its payload files.
pub fn load_script<R: Files + AllocGlobal>(rt: &R, name: &Text) -> Result<Bound, NotDrawn> {
    let bytes = load(rt, name)?;
    let script = parse(rt.alloc(), bytes.as_slice())?;
    let files = load_payloads(rt, script.payloads.as_slice())?;
    Ok(bind(script, files)?)
}
