//! A script and its payload files, loaded and put together; a file of a workload.
ghost use Rattle.std.specs.Prelude.{◌≡◌, ◌<◌, ◌≤◌, Some, IfOk, IfErr};
ghost use Rattle.fab_grammar.specs.Grammar.{script_of};
ghost use Rattle.fab_outside.specs.Loading.{AreUnloaded, AreWhole, IsRead, IsUnloaded, IsUnread, IsUnspelt, IsWhole, LeadsTo, LoadsOnly, Reaches};
ghost use Rattle.fab_outside.specs.Outside.{one_more};
ghost use Rattle.fab_outside.specs.Refused.{end_of};

use crate::outside::{Depot, LoadRefused};
use fab_base::{Bound, Buf, FILE_BYTES, Payload, Script, Status, Text};
use fab_script::{ParseRefused, bind, parse};
use std::alloc::Global;

/// The file of this name, or how the run ends.
pub fn load_file<D: Depot>(alloc: Global, depot: &mut D, name: &Text) -> Result<Buf, Status>
    ensures files { D.files depot.new ≡ D.files depot.old }
    ensures never_falls { D.faults depot.old ≤ D.faults depot.new }
    ensures loads { D.loaded depot.new ≡ one_more (D.loaded depot.old) name.now }
    ensures ok { IfOk result (λ bytes. IsWhole (D.files depot.old) name.now bytes) }
    ensures err { IfErr result (λ status. IsUnloaded (D.files depot.old) name.now (D.faults depot.old) (D.faults depot.new) (D.failed_name depot.new) status) }
{
    let refused = match depot.load(alloc, name, FILE_BYTES) {
        Ok(bytes) => return Ok(bytes),
        Err(refused) => refused,
    };
    let Ok(name) = name.clone() else {
        return Err(Status::NoMemory);
    };
    Err(match refused {
        LoadRefused::Failed => Status::ReadFault { name },
        LoadRefused::TooLong(_) => Status::TooLong { name },
        LoadRefused::NoMemory => Status::NoMemory,
    })
}

/// The files of these `payload` lines, in their order, or how the run ends at the first that is not loaded.
fn load_payloads<D: Depot>(
    alloc: Global,
    depot: &mut D,
    payloads: &[Payload],
) -> Result<Vec<Buf>, Status>
    ensures files { D.files depot.new ≡ D.files depot.old }
    ensures never_falls { D.faults depot.old ≤ D.faults depot.new }
    ensures loads { LoadsOnly (Reaches (D.files depot.old) payloads.now) (D.loaded depot.old) (D.loaded depot.new) }
    ensures ok { IfOk result (λ all. AreWhole (D.files depot.old) payloads.now all.items) }
    ensures err { IfErr result (λ status. AreUnloaded (D.files depot.old) payloads.now (D.faults depot.old) (D.faults depot.new) (D.failed_name depot.new) status) }
{
    let mut files = Vec::new(alloc);
    for payload in payloads {
        let file = load_file(alloc, depot, &payload.name)?;
        let Ok(()) = files.push(file) else {
            return Err(Status::NoMemory);
        };
    }
    Ok(files)
}

/// How the run ends where the script is refused so.
pub fn status_of(refused: ParseRefused) -> Status
    ensures { result ≡ end_of refused }
{
    match refused {
        ParseRefused::Script { line, why } => Status::ScriptRefused { line, why },
        ParseRefused::NoMemory => Status::NoMemory,
    }
}

/// The script that these bytes spell, or how the run ends.
fn read_script(alloc: Global, bytes: &[u8]) -> Result<Script, Status>
    ensures ok { IfOk result (λ script. script_of bytes.now ≡ Some script) }
    ensures sized { IfOk result (λ script. (2 ≤ script.conf.info.cq) × (4 ≤ script.conf.info.log)) }
    ensures err { IfErr result (λ status. IsUnspelt bytes.now status) }
{
    parse(alloc, bytes).map_err(status_of)
}

/// Loads the file of this name and reads the script that it spells, loads its payload files and binds it, or says
/// how the run ends.
pub fn load_script<D: Depot>(alloc: Global, depot: &mut D, name: &Text) -> Result<Bound, Status>
    ensures files { D.files depot.new ≡ D.files depot.old }
    ensures never_falls { D.faults depot.old ≤ D.faults depot.new }
    ensures loads { LoadsOnly (LeadsTo (D.files depot.old) name.now) (D.loaded depot.old) (D.loaded depot.new) }
    ensures ok { IfOk result (λ bound. IsRead (D.files depot.old) name.now bound) }
    ensures sized { IfOk result (λ bound. (2 ≤ bound.script.conf.info.cq) × (4 ≤ bound.script.conf.info.log)) }
    ensures peers { IfOk result (λ bound. (0 < bound.script.conf.peers) × (bound.script.conf.peers ≤ 64)) }
    ensures lane { IfOk result (λ bound. (0 < bound.script.conf.info.lane) × (bound.script.conf.info.lane ≤ 1024)) }
    ensures pool { IfOk result (λ bound. (0 < bound.script.conf.info.pool) × (bound.script.conf.info.pool ≤ 1024)) }
    ensures tx { IfOk result (λ bound. 1 ≤ bound.script.conf.info.tx) }
    ensures err { IfErr result (λ status. IsUnread (D.files depot.old) name.now (D.faults depot.old) (D.faults depot.new) (D.failed_name depot.new) status) }
{
    let bytes = load_file(alloc, depot, name)?;
    let script = read_script(alloc, bytes.as_slice())?;
    let files = load_payloads(alloc, depot, script.payloads.as_slice())?;
    bind(script, files).map_err(status_of)
}
